//! Tests of one crate each, by its public calls: messages, token arrays, lines, endpoints and desks.
#![tactic(auto)]

#[cfg(test)]
mod cuts;
#[cfg(test)]
mod desk;
#[cfg(test)]
mod edges;
#[cfg(test)]
mod endpoints;
#[cfg(test)]
mod lines;
#[cfg(test)]
mod messages;
#[cfg(test)]
mod same;
#[cfg(test)]
mod tokens;
