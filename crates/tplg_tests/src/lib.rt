//! Tests of calls that read, plan and write topologies.
#![tactic(auto)]

#[cfg(test)]
mod amplified;
#[cfg(test)]
mod changed;
#[cfg(test)]
mod cut;
#[cfg(test)]
mod faults;
#[cfg(test)]
mod plans;
#[cfg(test)]
mod same;
#[cfg(test)]
mod sourced;
#[cfg(test)]
mod stated;
#[cfg(test)]
mod thin;
#[cfg(test)]
mod written;
