//! Runs of the top calls over a firmware after a link that fails of its own accord, with the records that they leave, and over a far
//! firmware; and sessions on use and the host's calls on streams by themselves.
#![tactic(auto)]

#[cfg(test)]
mod boots;
#[cfg(test)]
mod device;
#[cfg(test)]
mod far;
#[cfg(test)]
mod graphs;
#[cfg(test)]
mod host_calls;
#[cfg(test)]
mod linked;
#[cfg(test)]
mod on_use;
#[cfg(test)]
mod plans;
#[cfg(test)]
mod same;
#[cfg(test)]
mod sessions;
#[cfg(test)]
mod thin;
