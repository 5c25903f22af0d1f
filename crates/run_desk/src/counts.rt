// Counts that are said.
ghost use Rattle.std.specs.Prelude.{◌≡◌, ◌<◌, ◌≤◌, [], ◌∷◌, length, is_ok};
ghost use Rattle.run_desk.specs.Todo.{DeskPhase};
ghost use Rattle.run_desk.specs.Lines.{with_newline, count_line};
ghost use Rattle.run_desk.specs.LinesTodo.{lines_todo};

use crate::lines::say_digits;
use sof_desk::{Desk, DeskFailed};
use sof_script::Line;

// How many there are, as a line with its newline.
fn write_count(word: &[u8], count: u64, line: &mut Line)
    requires { length word.now ≤ 20 }
    ensures { line.new ≡ with_newline (count_line word.now count) }
{
    line.clear();
    line.say(word);
    say_digits(count, line);
    line.say(b"\n");
}

/// Says how many there are.
pub fn say_count<D: Desk>(desk: &mut D, word: &[u8], count: u64) -> Result<(), DeskFailed>
    requires { length word.now ≤ 20 }
    ensures { DeskPhase D.means (lines_todo (count_line word.now count ∷ [])) (is_ok result) desk.old desk.new }
{
    let mut line = Line::new();
    write_count(word, count, &mut line);
    desk.say(line.bytes())
}
