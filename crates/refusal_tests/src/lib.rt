//! Tests of refusals: a device refuses exactly the drawn messages that it has a reason for, each with the reason's error.
#![tactic(auto)]

#[cfg(test)]
mod drawing;
#[cfg(test)]
mod graphs;
#[cfg(test)]
mod numbers;
#[cfg(test)]
mod parts;
#[cfg(test)]
mod refusals;
#[cfg(test)]
mod same;
