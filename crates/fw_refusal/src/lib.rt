//! Why a firmware refuses what it is sent: the fault of the bytes, or the reason of their message. It is told before the bytes are handed
//! over or after, since what is refused changes nothing.
#![tactic(auto)]

mod telling;

pub use telling::refusal;
