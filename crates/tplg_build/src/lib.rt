//! Builds topologies from what a source states of them: widgets with tokens and controls, routes, and PCMs with their caps.
//! What a source does not state is filled in.
#![tactic(auto)]

mod blocks;
mod build_fault;
mod building;
mod choices;
mod controls;
mod limits;
mod names;
mod pcms;
mod routes;
mod source;
mod tokens;
mod widgets;

pub use build_fault::BuildFault;
pub use building::build;
pub use choices::Choices;
pub use limits::is_small;
pub use names::empty_name;
pub use source::{
    PcmLimits, SourceControl, SourcePcm, SourceRoute, SourceWidget, TopologySource, WidgetKind,
};
pub use tokens::text_tuple;
