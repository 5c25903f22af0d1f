// The words of a shown line.
ghost use Rattle.std.specs.Prelude.{◌≡◌, ◌+◌, ◌≤◌, ◌++◌, length};
ghost use Rattle.sof_session.specs.Show as show;
ghost use Rattle.sof_script.specs.KindWords as kinds;

use host_widgets::{Found, Power};
use sof_base::Params;
use sof_script::{Line, format_words};

// Whether the device is on, alone on the line.
pub fn write_power(power: Power, line: &mut Line)
    ensures said { line.new ≡ show.power_words power }
    ensures short { length line.new ≤ 14 }
{
    line.clear();
    match power {
        Power::Unloaded => line.say(b"power unloaded"),
        Power::On => line.say(b"power on"),
        Power::Off => line.say(b"power off"),
    }
}

// The component at an end of an edge.
pub fn say_end(end: Option<u32>, line: &mut Line)
    requires { length line.old + 10 ≤ 2304 }
    ensures said { line.new ≡ line.old ++ kinds.end_words end }
    ensures longer { length line.new ≤ length line.old + 10 }
{
    match end {
        None => line.say(b"-"),
        Some(id) => line.say_number(id),
    }
}

// How far a stream is.
pub fn say_found(found: Found, line: &mut Line)
    requires { length line.old + 9 ≤ 2304 }
    ensures said { line.new ≡ line.old ++ show.found_words found }
    ensures longer { length line.new ≤ length line.old + 9 }
{
    match found {
        Found::Closed => line.say(b" closed"),
        Found::Open => line.say(b" open"),
        Found::Prepared => line.say(b" prepared"),
        Found::Running => line.say(b" running"),
        Found::Paused => line.say(b" paused"),
        Found::On => line.say(b" on"),
    }
}

// A stream's parameters, where it has them: frames a second, channels and format.
pub fn say_params(params: Option<Params>, line: &mut Line)
    requires { length line.old + 26 ≤ 2304 }
    ensures said { line.new ≡ line.old ++ show.params_words params }
    ensures longer { length line.new ≤ length line.old + 26 }
{
    if let Some(params) = params {
        line.say(b" ");
        line.say_number(params.rate);
        line.say(b" ");
        line.say_number(u32::from(params.channels));
        line.say(b" ");
        line.say(format_words(params.format));
    }
}
