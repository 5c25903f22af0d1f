// The pieces of pipelines that come and go, as where each is made once a stream needs it.
use crate::small::{dai, host, join, mixer, pipeline, sized};
use crate::steps::{NO_MEMORY, Step, done, played};
use ipc3_codec::Message;
use std::test::Fail;

// A host's pipeline, of 1696 bytes, and that of a mixer, of 960.
fn mixed() -> [Message; 13] {
    [
        host(0, 1, 0),
        sized(1, 1, 1536),
        pipeline(2, 1, 0),
        mixer(6, 3),
        sized(7, 3, 768),
        dai(8, 3, 0),
        pipeline(9, 3, 8),
        join(0, 1),
        join(1, 6),
        join(6, 7),
        join(7, 8),
        Message::PipeComplete { id: 2 },
        Message::PipeComplete { id: 9 },
    ]
}

// A second host's pipeline fills the hole behind them. The first one goes, and fills the hole that it left once it comes again: no hole is
// greater.
#[test]
fn a_pipeline_that_comes_again_fills_its_hole(rt: HostRuntime) -> Result<(), Fail> {
    let steps = [
        Step::Holds(2656, 7),
        Step::Told(sized(20, 4, 1665), NO_MEMORY),
        done(sized(20, 4, 1664)),
        Step::Holds(4352, 8),
        done(Message::BufferFree { id: 20 }),
        done(host(3, 2, 0)),
        done(sized(4, 2, 1536)),
        done(pipeline(5, 2, 3)),
        done(join(3, 4)),
        done(join(4, 6)),
        done(Message::PipeComplete { id: 5 }),
        Step::Holds(4352, 10),
        Step::Told(mixer(20, 4), NO_MEMORY),
        done(Message::PipeFree { id: 2 }),
        done(Message::BufferFree { id: 1 }),
        done(Message::CompFree { id: 0 }),
        Step::Holds(2656, 7),
        Step::Told(sized(20, 4, 1665), NO_MEMORY),
        done(host(0, 1, 0)),
        done(sized(1, 1, 1536)),
        done(pipeline(2, 1, 0)),
        Step::Holds(4352, 10),
        Step::Told(mixer(20, 4), NO_MEMORY),
    ];
    played(&rt, rt.alloc(), 4352, &mixed(), &steps)
}
