// Names of records.
ghost use Rattle.std.specs.Prelude.{◌≡◌, []};
ghost use Rattle.sof_base.specs.Slots.{IsName};

use sof_base::Name44;

/// The empty name.
pub fn empty_name() -> Name44
    ensures { result ≡ [] }
{
    match Name44::new(b"") {
        Some(empty) => empty,
        None => unreachable!(),
    }
}

/// A name again.
pub fn copied(name: &Name44) -> Name44
    ensures value { result ≡ name.now }
    ensures is_name { IsName name.now }
{
    let _bytes = name.as_bytes();
    name.copied()
}
