// Worked examples of every library, as tests. They stand in a crate of their own, since a crate with tests is proved twice.
#![tactic(auto)]

#[cfg(test)]
mod answers;
#[cfg(test)]
mod fields;
#[cfg(test)]
mod licences;
#[cfg(test)]
mod lines;
#[cfg(test)]
mod packets;
#[cfg(test)]
mod refusals;
#[cfg(test)]
mod routes;
#[cfg(test)]
mod tables;
#[cfg(test)]
mod trees;
