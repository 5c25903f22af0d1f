// The words for formats and kinds of components.
ghost use Rattle.std.specs.Prelude.{◌≡◌, ◌≤◌, length};
ghost use Rattle.sof_script.specs.KindWords as kinds;

use sof_base::Format;
use stream_law::Kind;

/// A format, as scripts write it.
pub fn format_words(format: Format) -> &'static [u8]
    ensures words { result.now ≡ kinds.format_words format }
    ensures short { length result.now ≤ 3 }
{
    match format {
        Format::S16 => b"s16",
        Format::S24 => b"s24",
        Format::S32 => b"s32",
    }
}

/// A component's kind, with the format of a DAI.
pub fn kind_words(kind: Kind) -> &'static [u8]
    ensures words { result.now ≡ kinds.kind_words kind }
    ensures short { length result.now ≤ 15 }
{
    match kind {
        Kind::HostPlay => b"host-play",
        Kind::HostCapture => b"host-capture",
        Kind::DaiPlay(Format::S16) => b"dai-play s16",
        Kind::DaiPlay(Format::S24) => b"dai-play s24",
        Kind::DaiPlay(Format::S32) => b"dai-play s32",
        Kind::DaiCapture(Format::S16) => b"dai-capture s16",
        Kind::DaiCapture(Format::S24) => b"dai-capture s24",
        Kind::DaiCapture(Format::S32) => b"dai-capture s32",
        Kind::Volume => b"volume",
        Kind::Mixer => b"mixer",
        Kind::Mux => b"mux",
        Kind::Eq => b"eq",
        Kind::Demux => b"demux",
    }
}
