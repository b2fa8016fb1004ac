// Tests of what reads, resolves and compiles, and of what counts statements beside that, through what is public there: worked
// texts, one file a subject.
//
// They stand in a crate of their own, since a crate with tests is proved twice, and this one has nothing else; they wait
// for the compiler alone, and run while the machine is proved. The tests of commands stand in `subpy`.
#![tactic(auto)]

#[cfg(test)]
mod code;
#[cfg(test)]
mod lines;
#[cfg(test)]
mod reading;
#[cfg(test)]
mod scope;
#[cfg(test)]
mod spots;
#[cfg(test)]
mod tokens;
#[cfg(test)]
mod trees;
