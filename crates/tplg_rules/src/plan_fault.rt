ghost use Rattle.std.specs.Prelude.{◌≡◌, Err, IsOk, MatchOption};

use sof_base::NoMemory;
use std::alloc::AllocError;
use thiserror::Error;

/// Why there is no plan: the first rule that is broken, with its first item, or want of memory.
#[derive(Clone, Copy, Debug, PartialEq, Eq, Error)]
pub enum PlanFault {
    #[error("rule {rule}, {} {item}: {}", item_word(*.rule), says(*.rule))]
    Rule { rule: u8, item: u32 },
    #[error("out of memory")]
    OutOfMemory,
}

impl From<AllocError> for PlanFault {
    ghost use Rattle.tplg_rules.specs.declared.plan_fault.PlanFault.TheVariants.{OutOfMemory};

    ghost from_gives = { λ _ e. e ≡ OutOfMemory };

    fn from(_error: AllocError) -> PlanFault {
        PlanFault::OutOfMemory
    }
}

impl From<NoMemory> for PlanFault {
    ghost use Rattle.tplg_rules.specs.declared.plan_fault.PlanFault.TheVariants.{OutOfMemory};

    ghost from_gives = { λ _ e. e ≡ OutOfMemory };

    fn from(_error: NoMemory) -> PlanFault {
        PlanFault::OutOfMemory
    }
}

/// The fault of a rule, where an item fails.
pub fn fault_at(rule: u8, failing: Option<u32>) -> Result<(), PlanFault>
    ensures { MatchOption failing (IsOk result) (λ item. result ≡ Err (PlanFault.Rule rule item)) }
{
    match failing {
        None => Ok(()),
        Some(item) => Err(PlanFault::Rule { rule, item }),
    }
}

/// What a rule's item is.
fn item_word(rule: u8) -> &'static str {
    match rule {
        1 => "count",
        3 | 4 => "route",
        14 => "component",
        _ => "widget",
    }
}

/// What does not hold at a rule's item.
fn says(rule: u8) -> &'static str {
    match rule {
        1 => "there are too many",
        2 => "the name is empty, cannot be printed, or stands earlier",
        3 => "an end names no widget",
        4 => "it joins two buffers",
        5 => "a buffer needs one route in and one out",
        6 => "its kind needs another number of routes",
        7 => "its index needs exactly one scheduler",
        8 => "its stream name names no component",
        9 => "its period is no multiple of 1000 from 1000 to 10000",
        10 => "its direction or its format is wrong",
        11 => "its stream name has no PCM, or stands earlier",
        12 => "its size is not from 16 to 16777184",
        13 => "it is no equaliser and no demux, or its control is out of range",
        _ => "it is on a cycle, or plays into a capture without an echo edge",
    }
}
