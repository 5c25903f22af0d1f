// What is wrong with a topology file.
ghost use Rattle.std.specs.Prelude.{◌<◌, ◌^◌, length, IfOk};
ghost use Rattle.tplg_widgets.specs.Entries.{entries_of};
ghost use Rattle.tplg_widgets.specs.Ends.{ends_in};

use crate::rule_fault::RuleFault;
use crate::shown::ShownName;
use sof_base::NoMemory;
use std::alloc::Global;
use tplg_model::Topology;
use tplg_read::{TplgFault, read};
use tplg_rules::{PlanFault, check_topology};
use tplg_widgets::Wiring;

/// The topology of a file.
pub fn topology_in(alloc: Global, bytes: &[u8]) -> Result<Topology, TplgFault>
    requires { length bytes.now < 2 ^ 32 }
    ensures widgets { IfOk result (λ t. length (entries_of t) < 2 ^ 32) }
    ensures routes { IfOk result (λ t. length (ends_in t) < 2 ^ 32) }
{
    match read(alloc, bytes) {
        Ok(topology) => Ok(topology),
        Err(fault) => Err(fault),
    }
}

// The sentence of a rule that a topology breaks.
fn rule_sentence(
    alloc: Global,
    file: &str,
    topology: &Topology,
    rule: u8,
    item: u32,
) -> Result<String, NoMemory>
    requires widgets { length (entries_of topology.now) < 2 ^ 32 }
    requires routes { length (ends_in topology.now) < 2 ^ 32 }
{
    let wiring = Wiring::of(alloc, topology)?;
    let fault = RuleFault {
        rule,
        item,
        topology,
        wiring: &wiring,
    };
    Ok(format!(in alloc; "{}: rule {rule}: {fault}", ShownName(file))?)
}

/// The sentence of the first fault of a topology file, with the name of the file in front; none where nothing is wrong.
pub fn topology_sentence(
    alloc: Global,
    file: &str,
    bytes: &[u8],
) -> Result<Option<String>, NoMemory>
    requires { length bytes.now < 2 ^ 32 }
{
    let topology = match topology_in(alloc, bytes) {
        Ok(topology) => topology,
        Err(TplgFault::OutOfMemory) => return Err(NoMemory),
        Err(fault) => return Ok(Some(format!(in alloc; "{}: {fault}", ShownName(file))?)),
    };
    match check_topology(alloc, &topology) {
        Ok(()) => Ok(None),
        Err(PlanFault::Rule { rule, item }) => {
            Ok(Some(rule_sentence(alloc, file, &topology, rule, item)?))
        }
        Err(PlanFault::OutOfMemory) => Err(NoMemory),
    }
}

/// The sentence of a right topology that has no source, with the name of its file in front.
pub fn no_source_sentence(alloc: Global, file: &str) -> Result<String, NoMemory> {
    Ok(format!(in alloc;
        "{}: its source would have another plan, or more than 1048576 bytes",
        ShownName(file)
    )?)
}
