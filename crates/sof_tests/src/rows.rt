// Worked rows of the written run, which its definition gives by computing alone. Nothing runs here.
ghost use Rattle.std.specs.Prelude.{◌≡◌, None, codes};
ghost use Rattle.sof_tests.specs.Rows.{thin_topology, load_said, boots_of};
ghost use Rattle.tplg_rules.specs.RuleTest.{ruling_of};
ghost use Rattle.tplg_graph.specs.TopologyNeed.{need_of};

/// The thin graph with a heap of 992 bytes, which it needs, and of 976.
pub fn load_and_show_rows()
    ensures rules { ruling_of thin_topology ≡ None }
    ensures need { need_of thin_topology ≡ 992 }
    ensures loaded { load_said 992 ≡ codes "1 ok\n2 show\npower on\ncomp 0 host-play pipe 1 PCM0P\nbuffer 1 size 768 pipe 1 B0\ncomp 2 dai-play s32 pipe 1 DAI0\npipe 3 index 1 period 1000 PIPE1\nedge 0 1 2\nstream PCM0P closed\n" }
    ensures refused { load_said 976 ≡ codes "1 refused -12\n2 show\npower unloaded\n" }
    ensures boots { boots_of 992 ≡ 1 }
{}
