// Laws of reasons. Nothing runs here.
ghost use Rattle.row_reasons.specs.ReasonLaws as law;
ghost use Rattle.row_reasons.specs.Refusals.{RefusalsAreErrors};

/// The row of a message answers an error exactly if there is a reason, and it is the reason's.
pub fn reasons_are_errors()
    ensures { law.ReasonsAreErrors }
{}

/// What the reason of a message says holds of the message and of the state in which it came.
pub fn reasons_hold()
    ensures { law.ReasonsHold }
{}

/// Bytes are answered an error exactly if there is a refusal, and it is the refusal's.
pub fn refusals_are_errors()
    ensures { RefusalsAreErrors }
{}
