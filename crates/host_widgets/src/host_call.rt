// What a call of the host works on.
use crate::kept::Record;
use mbox_link::Dsp;
use sof_io::{Inputs, Outputs};
use tplg_plan::Plan;

/// What a call of the host works on: the plan, the heap in bytes and the record; and the device and the endpoints beyond it.
#[derive(Drop)]
pub struct HostCall<'a, P: Dsp> {
    pub plan: &'a Plan,
    pub heap: u32,
    pub kept: &'a mut Record,
    pub dsp: &'a mut P,
    pub io: &'a mut Inputs,
    pub out: &'a mut Outputs,
}
