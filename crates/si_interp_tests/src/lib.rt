// Tests of interpreters, through what is public there.
//
// They stand in a crate of their own, since a crate with tests is proved twice, and this one has nothing else.
#![tactic(auto)]

#[cfg(test)]
mod interpreters;
