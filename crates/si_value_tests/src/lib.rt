// Tests of the values of an arena, of their operations, of sharing and of methods, through what these crates have public.
//
// They stand in a crate of their own, since a crate with tests is proved twice, and this one has nothing else.
#![tactic(auto)]

#[cfg(test)]
mod arenas;
#[cfg(test)]
mod made;
#[cfg(test)]
mod methods;
#[cfg(test)]
mod operations;
#[cfg(test)]
mod placed;
#[cfg(test)]
mod sharing;
