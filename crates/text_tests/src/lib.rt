//! Tests of what is said in text: records of traces and their lines, and the picture of a plan.
#![tactic(auto)]

#[cfg(test)]
mod picture;
#[cfg(test)]
mod traces;
