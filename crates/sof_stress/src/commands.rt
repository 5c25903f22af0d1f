// The commands of a stress.
ghost use Rattle.std.specs.Prelude.{◌≡◌, ◌<◌, ◌≤◌, ◌^◌, ◌∷◌, []};
ghost use Rattle.sof_stress.specs.CarriedTurns.{next_state as state_after};
ghost use Rattle.sof_stress.specs.Draws as law;

use crate::names::{host_name, volume_name};
use sof_base::Bounded;
use sof_script::Command;

/// The state of the generator after another.
pub fn next_state(state: u32) -> u32
    requires { state < 2 ^ 31 }
    ensures next { result ≡ state_after state }
    ensures bound { result < 2 ^ 31 }
{
    ((state as u64 * 1103515245 + 12345) % 2147483648) as u32
}

/// How many streams a stress of this seed has.
pub fn streams_of(seed: u32) -> u32
    ensures streams { result ≡ law.stream_count seed }
    ensures few { (1 ≤ result) × (result ≤ 4) }
{
    1 + seed % 4
}

// The command that sets the volume of a stream to a value.
fn set_volume(i: u32, value: u32) -> Command
    requires { i < 4 }
    ensures { result ≡ Command.Set (law.volume_name i) (value ∷ []) }
{
    match Bounded::new(&[value]) {
        Some(values) => Command::Set(volume_name(i), values),
        None => unreachable!(),
    }
}

/// The command that a number makes over so many streams.
pub fn command_by(streams: u32, r: u32) -> Command
    requires some { 1 ≤ streams }
    requires few { streams ≤ 4 }
    ensures { result ≡ law.command_by streams r }
{
    let i = r / 8 % streams;
    match r % 8 {
        0 => Command::Tick(1 + r / 8 % 10),
        1 => Command::Start(host_name(i)),
        2 => set_volume(i, r / 64 % 33),
        3 => Command::Pause(host_name(i)),
        4 => Command::Release(host_name(i)),
        5 => Command::Suspend,
        6 => Command::Resume,
        _ => Command::Refuse(1, -22),
    }
}
