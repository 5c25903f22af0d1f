// Worked rows of `check`, which its definition gives by computing alone. Nothing runs here.
ghost use Rattle.std.specs.Prelude.{◌≡◌, Some, None, codes};
ghost use Rattle.tplg_rules.specs.RuleTest.{ruling_of};
ghost use Rattle.sof_tests.specs.Rows.{thin_topology};
ghost use Rattle.sof_tests.specs.CheckRows.{empty_topology, cycle_topology, echo_topology, crossing_topology, counts_said};

/// The lines of the thin graph and of an empty file, the rule that a cycle breaks, and two graphs with a way from a playback into a capture: by
/// an echo edge, which is right, and by none.
pub fn check_rows()
    ensures thin { counts_said thin_topology ≡ codes "pipelines 1\ncomponents 2\nbuffers 1\nroutes 2\nstreams 1\ncontrols 0\nneed 992\n" }
    ensures empty { counts_said empty_topology ≡ codes "pipelines 0\ncomponents 0\nbuffers 0\nroutes 0\nstreams 0\ncontrols 0\nneed 0\n" }
    ensures cycle { ruling_of cycle_topology ≡ Some (14, 0) }
    ensures echo { ruling_of echo_topology ≡ None }
    ensures crossing { ruling_of crossing_topology ≡ Some (14, 0) }
{}
