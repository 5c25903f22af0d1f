// What the definitions of a run entail. Nothing runs here.
ghost use Rattle.sof_session.specs.BootLaws.{LoadBoots, UpBoots};
ghost use Rattle.sof_session.specs.FaultRows.{RefusedUnmakingCuts, LostUnmakingIsDown, RefusedCloseCuts, DroppedMakingIsDown};
ghost use Rattle.sof_session.specs.RunLaws as law;
ghost use Rattle.sof_session.specs.SuccessLaws.{LoadSucceedsExactly, OpenSucceedsExactly};
ghost use Rattle.sof_session.specs.UpLaws.{UpIsShown, FirstIsShown, RunShowsUp};
ghost use Rattle.sof_session.specs.UpRows.{SecondStreamIsRefused, SharedPipelineStays, RefusedShowsUp, SharedShowsUp};

/// The run of a sound plan is one: the same commands, doings of the device and whole inputs lead to the same legs, from the
/// first place, and from any place whose view has edges without a cycle. Such a place is each that a run from the first reaches. It is
/// also one where pipelines are made on use: from the first place, and from any whose view has edges without a cycle and where what is
/// there is joined as the plan joins it. Such a place is the first, and each that a run from one reaches.
pub fn one_run()
    ensures from_first { law.RunIsOne }
    ensures made_on_use { law.UpRunIsOne }
    ensures goes_on { law.RunGoesOnAsOne }
    ensures ranks { law.RunKeepsRanks }
    ensures goes_on_on_use { law.UpRunGoesOnAsOne }
    ensures ranks_on_use { law.UpRunKeepsRanks }
    ensures first_on_use { law.UpFirstIsRanked }
{}

/// Two streams that share a pipeline, over a heap that holds one of them and over one that holds both; after each command the firmware
/// has the graph of what is up.
pub fn mix_rows()
    ensures refused { SecondStreamIsRefused }
    ensures stays { SharedPipelineStays }
    ensures refused_shows { RefusedShowsUp }
    ensures stays_shows { SharedShowsUp }
{}

/// The result of a message that is refused, lost or dropped while pipelines of the mix graph are made or unmade.
pub fn fault_rows()
    ensures refused { RefusedUnmakingCuts }
    ensures lost { LostUnmakingIsDown }
    ensures closed { RefusedCloseCuts }
    ensures dropped { DroppedMakingIsDown }
{}

/// A host that makes pipelines on use has in the firmware what is up, before the first command and after each, whatever messages meet.
pub fn up_shown()
    ensures first { FirstIsShown }
    ensures kept { UpIsShown }
    ensures runs { RunShowsUp }
{}

/// A load or a resume that passes its test boots the device once, and no other command boots it: in both modes, whatever messages meet.
pub fn boots()
    ensures at_load { LoadBoots }
    ensures on_use { UpBoots }
{}

/// When a command is done that makes a graph. A load from unloaded is, exactly where the stated sizes fit the heap and each of its messages
/// passes. An open on use is, while the power is on and its test passes, exactly where each widget finds a hole and each message passes.
pub fn successes()
    ensures load { LoadSucceedsExactly }
    ensures open { OpenSucceedsExactly }
{}
