// The names of widgets.
ghost use Rattle.std.specs.Prelude.{◌≡◌, ◌+◌, ◌<◌, ◌≤◌, ◌∷◌, [], true};
ghost use Rattle.sof_base.specs.Slots.{is_name};
ghost use Rattle.sof_stress.specs.Draws as law;

use sof_base::Name44;

/// The name of these bytes.
pub fn named(bytes: &[u8]) -> Name44
    requires { is_name bytes.now ≡ true }
    ensures { result ≡ bytes.now }
{
    match Name44::new(bytes) {
        Some(name) => name,
        None => unreachable!(),
    }
}

/// The digit of a stream's number.
pub fn digit(i: u32) -> u8
    requires { i < 4 }
    ensures { result ≡ 48 + i }
{
    b'0' + i as u8
}

// The name of a letter and a stream's digit.
fn numbered(letter: u8, i: u32) -> Name44
    requires letter { 1 ≤ letter }
    requires stream { i < 4 }
    ensures { result ≡ law.numbered_name (letter ∷ []) i }
{
    named(&[letter, digit(i)])
}

/// The name of a stream's host.
pub fn host_name(i: u32) -> Name44
    requires { i < 4 }
    ensures { result ≡ law.host_name i }
{
    numbered(b'H', i)
}

/// The name of a stream's volume.
pub fn volume_name(i: u32) -> Name44
    requires { i < 4 }
    ensures { result ≡ law.volume_name i }
{
    numbered(b'V', i)
}
