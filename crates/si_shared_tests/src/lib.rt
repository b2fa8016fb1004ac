// Tests of integers and texts, and of what interpreters share: parcels, queues, the registry, the hub, and the texts of
// journals and schedules.
//
// They stand in a crate of their own, since a crate with tests is proved twice, and this one has nothing else.
#![tactic(auto)]

#[cfg(test)]
mod histories;
#[cfg(test)]
mod hub_rows;
#[cfg(test)]
mod hubs;
#[cfg(test)]
mod hubs_refused;
#[cfg(test)]
mod integers;
#[cfg(test)]
mod parcels;
#[cfg(test)]
mod parcels_refused;
#[cfg(test)]
mod queues;
#[cfg(test)]
mod registries;
#[cfg(test)]
mod schedules;
#[cfg(test)]
mod words;
