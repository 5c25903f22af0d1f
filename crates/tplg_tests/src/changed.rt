// The thin graph's file with one byte changed: what its reader says.
use crate::same::same;
use crate::stated::{fault_of, put_byte};
use crate::thin::thin_graph;
use std::test::Fail;
use tplg_read::TplgFault;

/// A place, the byte that stands there then, and the fault.
struct Changed {
    at: usize,
    byte: u8,
    fault: Option<TplgFault>,
}

const CHANGES: [Changed; 16] = [
    // the first block's header: magic, abi, version, type, header size, payload size, count
    Changed {
        at: 0,
        byte: 0x44,
        fault: Some(TplgFault::Magic(0)),
    },
    Changed {
        at: 4,
        byte: 6,
        fault: Some(TplgFault::Abi(0, 6)),
    },
    Changed {
        at: 8,
        byte: 9,
        fault: None,
    },
    Changed {
        at: 12,
        byte: 6,
        fault: None,
    },
    Changed {
        at: 16,
        byte: 35,
        fault: Some(TplgFault::HeaderSize(0)),
    },
    Changed {
        at: 24,
        byte: 0x83,
        fault: Some(TplgFault::Payload(36)),
    },
    Changed {
        at: 32,
        byte: 2,
        fault: Some(TplgFault::Payload(168)),
    },
    Changed {
        at: 32,
        byte: 0,
        fault: Some(TplgFault::Payload(36)),
    },
    // the first widget: its size word, its name, a byte after its name's end
    Changed {
        at: 36,
        byte: 1,
        fault: None,
    },
    Changed {
        at: 44,
        byte: b'Q',
        fault: None,
    },
    Changed {
        at: 80,
        byte: 7,
        fault: None,
    },
    // the buffer's vendor array: its size, its type, its number of elements, its token
    Changed {
        at: 336,
        byte: 21,
        fault: Some(TplgFault::Tokens(204)),
    },
    Changed {
        at: 340,
        byte: 6,
        fault: Some(TplgFault::Tokens(204)),
    },
    Changed {
        at: 344,
        byte: 2,
        fault: Some(TplgFault::Tokens(204)),
    },
    Changed {
        at: 348,
        byte: 101,
        fault: None,
    },
    // the PCM's last word, the size of its private bytes
    Changed {
        at: 2016,
        byte: 1,
        fault: Some(TplgFault::Payload(1108)),
    },
];

#[test]
fn each_changed_byte_is_told(rt: HostRuntime) -> Result<(), Fail> {
    let alloc = rt.alloc();
    let mut bytes = thin_graph(alloc)?;
    same(&rt, &"its end", &bytes.len(), &2020);
    same(&rt, &"no byte", &fault_of(alloc, &bytes), &None);
    for changed in &CHANGES {
        let at = changed.at;
        let before = put_byte(&mut bytes, at, changed.byte)?;
        same(&rt, &at, &fault_of(alloc, &bytes), &changed.fault);
        put_byte(&mut bytes, at, before)?;
    }
    Ok(())
}
