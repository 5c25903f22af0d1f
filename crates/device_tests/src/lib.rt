//! Tests of the firmware as a device, by its public calls, and of a tick by itself.
#![tactic(auto)]

#[cfg(test)]
mod drawn;
#[cfg(test)]
mod errors;
#[cfg(test)]
mod holes;
#[cfg(test)]
mod messages;
#[cfg(test)]
mod parts;
#[cfg(test)]
mod rows;
#[cfg(test)]
mod same;
#[cfg(test)]
mod small;
#[cfg(test)]
mod steps;
#[cfg(test)]
mod streams;
#[cfg(test)]
mod ticks;
