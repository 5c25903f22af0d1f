// Worked rows of the laws of success, of boots and of one run, which their definitions give by computing alone. Nothing runs here.
ghost use Rattle.std.specs.Prelude.{◌≡◌, [], ◌∷◌, codes, negsuc, false};
ghost use Rattle.mbox_link.specs.declared.fates.Fate.TheVariants.{Lose, Drop, Refuse};
ghost use Rattle.host_widgets.specs.declared.answers.Answer.TheVariants.{Done, Fault};
ghost use Rattle.host_widgets.specs.declared.answers.HostFault.TheVariants.{LinkDown};
ghost use Rattle.host_widgets.specs.There.{there_view, nowhere};
ghost use Rattle.sof_script.specs.declared.script.Command.TheVariants.{Load};
ghost use Rattle.sof_session.specs.Commands.{first_known, command_rules};
ghost use Rattle.sof_session.specs.FaultRows.{first_open, refused_by};
ghost use Rattle.sof_session.specs.RunLaws.{HasRanks, IsRankedPlace, is_planned_edge};
ghost use Rattle.sof_session.specs.UpCommands.{up_rules};
ghost use Rattle.sof_session.specs.UpRows.{mix_plan};
ghost use Rattle.sof_tests.specs.LawRows.{thin_plan, thin_acts, load_answer, MayLoad, none_open, one_open, opening_count, open_answer, MayOpen, boots_each, tested_each, power_commands, mix_commands, place_with, edges_alone, other_edge, round_edges};

/// A load of the thin graph, which has seven messages and needs 992 bytes: with the eighth message lost, with a smaller heap, and with one of
/// the seven lost or refused.
pub fn load_success_rows()
    ensures messages { thin_acts ≡ 7 }
    ensures done { load_answer 992 8 Lose ≡ Done }
    ensures may { MayLoad 992 8 Lose }
    ensures small { load_answer 976 8 Lose ≡ refused_by (negsuc 11) }
    ensures small_may_not { MayLoad 976 8 Lose → ⊥ }
    ensures lost { load_answer 992 7 Lose ≡ Fault LinkDown }
    ensures lost_may_not { MayLoad 992 7 Lose → ⊥ }
    ensures refused { load_answer 992 1 (Refuse (negsuc 4)) ≡ refused_by (negsuc 4) }
    ensures refused_may_not { MayLoad 992 1 (Refuse (negsuc 4)) → ⊥ }
{}

/// Opens over the mix graph that make pipelines: the first stream's has thirteen messages, and the second's then six. Of these one after the
/// last is lost, and the last or the first; and with 128 bytes left the second's buffer finds no hole.
pub fn open_success_rows()
    ensures messages { opening_count (none_open 4352) (codes "PCM0P") ≡ 13 }
    ensures done { open_answer (none_open 4352) (codes "PCM0P") 14 Lose ≡ Done }
    ensures may { MayOpen (none_open 4352) (codes "PCM0P") 14 Lose }
    ensures lost { open_answer (none_open 4352) (codes "PCM0P") 13 Lose ≡ Fault LinkDown }
    ensures lost_may_not { MayOpen (none_open 4352) (codes "PCM0P") 13 Lose → ⊥ }
    ensures shared { opening_count (one_open 1696) (codes "PCM1P") ≡ 6 }
    ensures shared_done { open_answer (one_open 1696) (codes "PCM1P") 7 Drop ≡ Done }
    ensures shared_may { MayOpen (one_open 1696) (codes "PCM1P") 7 Drop }
    ensures shared_refused { open_answer (one_open 1696) (codes "PCM1P") 1 (Refuse (negsuc 4)) ≡ refused_by (negsuc 4) }
    ensures full { open_answer (one_open 128) (codes "PCM1P") 7 Drop ≡ refused_by (negsuc 11) }
    ensures full_may_not { MayOpen (one_open 128) (codes "PCM1P") 7 Drop → ⊥ }
{}

/// How often commands boot the device: a load, another, a suspend, a resume, another, an unload and a load. A load boots also where the heap is
/// too small. On use an open boots nothing, and neither does a close while the power is off.
pub fn boot_rows()
    ensures at_load { boots_each (command_rules thin_plan 992) (first_known (command_rules thin_plan 992)) power_commands ≡ 1 ∷ 0 ∷ 0 ∷ 1 ∷ 0 ∷ 0 ∷ 1 ∷ [] }
    ensures at_load_law { tested_each (command_rules thin_plan 992) (first_known (command_rules thin_plan 992)) power_commands ≡ 1 ∷ 0 ∷ 0 ∷ 1 ∷ 0 ∷ 0 ∷ 1 ∷ [] }
    ensures small { boots_each (command_rules thin_plan 976) (first_known (command_rules thin_plan 976)) (Load ∷ Load ∷ []) ≡ 1 ∷ 1 ∷ [] }
    ensures on_use { boots_each (up_rules mix_plan 2784) (first_known (up_rules mix_plan 2784)) mix_commands ≡ 1 ∷ 0 ∷ 0 ∷ 0 ∷ 1 ∷ 0 ∷ [] }
    ensures on_use_law { tested_each (up_rules mix_plan 2784) (first_known (up_rules mix_plan 2784)) mix_commands ≡ 1 ∷ 0 ∷ 0 ∷ 0 ∷ 1 ∷ 0 ∷ [] }
{}

/// Places from which a run on use is one: where the first stream of the mix graph is open, and where nothing is. It is none where a buffer leads
/// past the mixer, nor where two buffers lead round.
pub fn place_rows()
    ensures open { IsRankedPlace mix_plan (place_with first_open.there) }
    ensures nothing { IsRankedPlace mix_plan (place_with nowhere) }
    ensures past { is_planned_edge mix_plan other_edge ≡ false }
    ensures past_is_none { IsRankedPlace mix_plan (place_with (edges_alone (other_edge ∷ []))) → ⊥ }
    ensures round { HasRanks (there_view (edges_alone round_edges)) → ⊥ }
{}
