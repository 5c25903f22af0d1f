// Calls that are planned to fail.
ghost use Rattle.std.specs.Prelude.{◌≡◌, position, OnOk, OnErr};
ghost use Rattle.sof_desk.specs.Plans.{planned_at, is_for};
ghost use Rattle.sof_desk.specs.Edits.{put_first};

use sof_base::NoMemory;

/// A call that fails, by its number from 1; an append or a say that fails takes at most `passes` bytes.
#[derive(Clone, Copy, Debug)]
pub struct Planned {
    pub number: u32,
    pub passes: u32,
}

/// How many bytes the call of a number passes, where it is planned to fail.
pub fn planned_at(plans: &[Planned], number: u64) -> Option<u32>
    ensures { result ≡ planned_at number plans.now }
{
    let plan = plans.iter().find(|plan| plan.number as u64 == number)?;
    Some(plan.passes)
}

fn place_of(plans: &[Planned], number: u32) -> Option<usize>
    ensures { result ≡ position (is_for number) plans.now }
{
    plans.iter().position(|plan| plan.number == number)
}

/// Puts a plan in the place of the one for its call, or at the end.
pub fn put_in(plans: &mut Vec<Planned>, plan: Planned) -> Result<(), NoMemory>
    ensures ok { OnOk result (plans.new.items ≡ put_first (is_for plan.number) plan plans.old.items) }
    ensures err { OnErr result (plans.new.items ≡ plans.old.items) }
{
    match place_of(plans, plan.number) {
        Some(place) => plans[place] = plan,
        None => plans.push(plan)?,
    }
    Ok(())
}
