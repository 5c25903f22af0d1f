// What the calls of a session answer, by the results of the host's calls and the link's.
ghost use Rattle.std.specs.Prelude.{◌≡◌};
ghost use Rattle.sof_session.specs.Commands.{answer_by};
ghost use Rattle.sof_session.specs.SessionCalls.{told_answer, plan_answer};

use host_widgets::{Answer, HostFault};
use mbox_link::PlanFull;

// What a call answers that answers nothing else once it is done.
pub fn answer_of(done: Result<(), HostFault>) -> Answer
    ensures { result ≡ answer_by Answer.Done done }
{
    match done {
        Ok(()) => Answer::Done,
        Err(fault) => Answer::Fault(fault),
    }
}

// What a call answers that tells something once it is done.
pub fn told_answer(asked: Result<Answer, HostFault>) -> Answer
    ensures { result ≡ told_answer asked }
{
    asked.unwrap_or_else(Answer::Fault)
}

// The answer where a fate or a lag was planned, or where there was no room for it.
pub fn plan_answer(planned: Result<(), PlanFull>) -> Answer
    ensures { result ≡ plan_answer planned }
{
    match planned {
        Ok(()) => Answer::Done,
        Err(PlanFull) => Answer::PlanFull,
    }
}
