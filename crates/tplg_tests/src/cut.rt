// The files of the thin graph and of the one with a volume, cut at each length: what their reader says.
use crate::amplified::amplified_graph;
use crate::same::same;
use crate::stated::fault_of;
use crate::thin::thin_graph;
use std::alloc::Global;
use std::process::Abort;
use std::test::Fail;
use tplg_read::TplgFault;

// Where the thin graph's blocks begin: a host, a buffer, a DAI, a pipeline, two routes and a PCM. Each is a header of 36 bytes
// and its records.
const THIN: [usize; 6] = [0, 168, 356, 584, 772, 1072];

// And those of the graph with a volume: its second block's buffer is followed by the volume with its control of 360 bytes,
// another buffer, and then as before, with four routes.
const AMPLIFIED: [usize; 8] = [0, 168, 356, 884, 1072, 1300, 1488, 2052];

// The fault of so many bytes of a file: the last block that begins among them is cut, unless none is.
fn cut_fault(starts: &[usize], length: usize) -> Option<TplgFault> {
    let mut fault = None;
    for &start in starts {
        if start == length {
            return None;
        }
        if start < length {
            fault = Some(TplgFault::Truncated(start));
        }
    }
    fault
}

// Each front of a file is refused as cut, and the whole file is a topology's.
fn each_cut_is_told(
    rt: &impl Abort,
    alloc: Global,
    file: &[u8],
    starts: &[usize],
) -> Result<(), Fail> {
    for length in 0..file.len() {
        let cut = file.get(..length).ok_or("past the end")?;
        same(
            rt,
            &length,
            &fault_of(alloc, cut),
            &cut_fault(starts, length),
        );
    }
    same(rt, &"the whole", &fault_of(alloc, file), &None);
    Ok(())
}

#[test]
fn a_file_that_is_cut_is_told(rt: HostRuntime) -> Result<(), Fail> {
    let file = thin_graph(rt.alloc())?;
    same(&rt, &"its end", &file.len(), &2020);
    each_cut_is_told(&rt, rt.alloc(), &file, &THIN)
}

#[test]
fn a_file_with_a_volume_that_is_cut_is_told(rt: HostRuntime) -> Result<(), Fail> {
    let file = amplified_graph(rt.alloc())?;
    same(&rt, &"its end", &file.len(), &3000);
    each_cut_is_told(&rt, rt.alloc(), &file, &AMPLIFIED)
}
