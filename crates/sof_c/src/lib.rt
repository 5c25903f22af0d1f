//! The firmware and the check of topologies for C: devices behind handles. What C calls stands in `device.rt`, `endpoints.rt` and
//! `topology.rt`, and ends in `_unchecked`: the header tests its pointers first.
#![tactic(auto)]

mod device;
mod endpoints;
mod handle;
mod machine;
mod status;
mod topology;
