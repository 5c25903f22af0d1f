//! Tests of the firmware's lower crates, each by its public calls: blobs, equalisers, the heap and its rings, kernels, the registry.
#![tactic(auto)]

#[cfg(test)]
mod blobs;
#[cfg(test)]
mod equaliser;
#[cfg(test)]
mod filled;
#[cfg(test)]
mod heap;
#[cfg(test)]
mod kernels;
#[cfg(test)]
mod parts;
#[cfg(test)]
mod registry;
#[cfg(test)]
mod same;
