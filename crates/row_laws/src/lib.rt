//! What every state of a device that is on keeps, and that each row of the firmware's table, a boot and a tick keep it. Nothing
//! runs here. The laws speak of states and rows alone, so they serve every device that carries the rows out.
#![tactic(auto)]

mod laws;

pub use laws::{state_laws, table_laws};
