// Items one after the other.
ghost use Rattle.std.specs.Prelude.{◌≡◌, ◌<◌, ◌^◌, OnOk, List, length};
ghost use Rattle.sof_base.specs.Cells.{Cell};
ghost use Rattle.tplg_model.specs.Arrays.{Each};
ghost use Rattle.tplg_model.specs.Spelling.{items_cells};
ghost use Rattle.tplg_write.specs.Sinks.{with_cells};

use crate::sink::Sink;
use sof_base::NoMemory;

/// What stands in a file one after the other, and how it is spelled.
pub trait Spelled: Sized {
    ghost cells: { Self → List Cell };

    /// Its numbers, names and lists are the program's.
    ghost is: { Self → Type 0 };

    /// Writes its bytes, which are fewer than 2^32. Where there is no memory, some of them may have been written.
    fn put(&self, sink: &mut Sink) -> Result<(), NoMemory>
        requires room { length (cells self.now) < 2 ^ 32 }
        ensures ok { OnOk result (sink.new ≡ with_cells sink.old (cells self.now)) }
        ensures is { OnOk result (is self.now) }
        ensures front { sink.new.front ≡ sink.old.front };
}

/// Writes the bytes of items, one after the other.
pub fn put_items<I: Spelled>(items: &[I], sink: &mut Sink) -> Result<(), NoMemory>
    requires room { length (items_cells I.cells items.now) < 2 ^ 32 }
    ensures ok { OnOk result (sink.new ≡ with_cells sink.old (items_cells I.cells items.now)) }
    ensures are { OnOk result (Each I.is items.now) }
    ensures front { sink.new.front ≡ sink.old.front }
{
    for item in items {
        item.put(sink)?;
    }
    Ok(())
}
