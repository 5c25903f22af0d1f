//! Why a message is refused: the first of the tests of its row in the firmware's table that holds, and what that says of the state. The
//! laws speak of states and rows alone, so they serve every device that carries the rows out.
#![tactic(auto)]

mod laws;
mod reasons;
mod refusals;
mod worked;

pub use laws::{reasons_are_errors, reasons_hold, refusals_are_errors};
pub use reasons::Reason;
pub use refusals::Refusal;
pub use worked::{graph_rows, heap_rows, stream_rows};
