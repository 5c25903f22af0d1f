// The lines that are said where a source is refused.
ghost use Rattle.std.specs.Prelude.{◌≡◌, ◌≤◌, length};
ghost use Rattle.run_tools.specs.Compiling.{list_word as word_of, source_line};

use run_desk::write_rule;
use sof_script::Line;
use tplg_compile::{List, SourceFault};

// The word of a list of a source.
fn list_word(list: List) -> &'static [u8]
    ensures word { result.now ≡ word_of list }
    ensures short { length result.now ≤ 6 }
{
    match list {
        List::Top => b"top",
        List::Widget => b"widget",
        List::Route => b"route",
        List::Pcm => b"pcm",
    }
}

// The line of an entry of a source that is at fault, with its newline.
fn write_shape(list: List, entry: u32, line: &mut Line)
    ensures { line.new ≡ source_line (SourceFault.Shape list entry) }
{
    line.clear();
    line.say(b"source shape ");
    line.say(list_word(list));
    line.say(b" ");
    line.say_number(entry);
    line.say(b"\n");
}

/// Writes the line for a source that is refused, with its newline.
pub fn write_source(fault: SourceFault, line: &mut Line)
    ensures { line.new ≡ source_line fault }
{
    match fault {
        SourceFault::Syntax => {
            line.clear();
            line.say(b"source syntax\n");
        }
        SourceFault::Shape { list, entry } => write_shape(list, entry, line),
        SourceFault::Rule { rule, item } => write_rule(b"source rule ", rule, item, line),
        SourceFault::OutOfMemory => {
            line.clear();
            line.say(b"no memory\n");
        }
    }
}
