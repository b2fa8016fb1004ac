// Tests of workers and of the book that they share, through what is public there.
//
// They stand in a crate of their own, since a crate with tests is proved twice, and this one has nothing else; they wait
// for the threads, and those of interpreters and worlds do not.
#![tactic(auto)]

#[cfg(test)]
mod workers;
