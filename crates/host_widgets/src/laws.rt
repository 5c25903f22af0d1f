// Worked rows of walks, which the definitions give by computing alone.
ghost use Rattle.std.specs.Prelude.{◌≡◌, [], ◌∷◌, negsuc, Err};
ghost use Rattle.mbox_link.specs.declared.fates.Fate.TheVariants as fates;
ghost use Rattle.host_widgets.specs.declared.answers.HostFault.TheVariants.{Refused, LinkDown};
ghost use Rattle.host_widgets.specs.declared.kept.Found.TheVariants.{Running, Prepared};
ghost use Rattle.host_widgets.specs.declared.trigger.Trigger.TheVariants.{Stop};
ghost use Rattle.host_widgets.specs.Host.{errno};
ghost use Rattle.host_widgets.specs.HostActs.{Trig, Free, Save};
ghost use Rattle.host_widgets.specs.WalkRows.{closing, going_down, meets, one_stream};

/// Rows of walks over a plan of one stream that runs; nothing runs here.
/// - A close that is refused at its second message: the stream was stopped, and stays prepared.
/// - A close whose first message is lost: no second is sent, and the record stays.
/// - Going down with a first message that is refused: the second is sent, and the first refusal is reported; where that one is
///   dropped, the failed link is reported in its place.
pub fn walk_rows()
    ensures refused { (closing (meets 2 (fates.Refuse (negsuc 4)) ∷ [])).outcome ≡ Err (Refused (errno (negsuc 4))) }
    ensures stopped { (closing (meets 2 (fates.Refuse (negsuc 4)) ∷ [])).kept ≡ one_stream Prepared }
    ensures both { (closing (meets 2 (fates.Refuse (negsuc 4)) ∷ [])).sent ≡ Trig 0 Stop ∷ Free 0 ∷ [] }
    ensures lost { (closing (meets 1 fates.Lose ∷ [])).outcome ≡ Err LinkDown }
    ensures none_after { (closing (meets 1 fates.Lose ∷ [])).sent ≡ Trig 0 Stop ∷ [] }
    ensures stays { (closing (meets 1 fates.Lose ∷ [])).kept ≡ one_stream Running }
    ensures told { (going_down (meets 1 (fates.Refuse (negsuc 4)) ∷ [])).outcome ≡ Err (Refused (errno (negsuc 4))) }
    ensures goes_on { (going_down (meets 1 (fates.Refuse (negsuc 4)) ∷ [])).sent ≡ Trig 0 Stop ∷ Save ∷ [] }
    ensures down { (going_down (meets 1 (fates.Refuse (negsuc 4)) ∷ meets 2 fates.Drop ∷ [])).outcome ≡ Err LinkDown }
{}
