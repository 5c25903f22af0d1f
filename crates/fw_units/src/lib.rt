//! One component, buffer or pipeline with its piece, and tables of them by ascending id.
#![tactic(auto)]

mod changing;
mod component;
mod frames;
mod hints;
mod places;
mod table;

pub use component::{Component, Unit};
pub use frames::copy_both;
pub use hints::Hints;
pub use places::{in_of, out_of};
pub use table::{
    complete_in, end_in, give_all, join_in, place, place_of, set_stream_in, take_at, value_in,
};
