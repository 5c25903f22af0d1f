// PCM_PARAMS: the parameters of a stream.
ghost use Rattle.std.specs.Prelude.{◌≡◌};
ghost use Rattle.ipc3_codec.specs.Reading.{stream_in, params_in};

use crate::frame::Frame;
use ipc3_model::{CodecFault, Message};
use sof_base::Params;

/// The words of stream_params that carry something.
#[derive(Clone, Copy)]
pub struct Stream {
    pub direction: u32,
    pub params: Params,
}

/// PCM_PARAMS, 108 bytes.
#[tactic(auto, unfolding(crate::specs::Reading::params_in))]
pub fn pcm_params(frame: &Frame) -> Result<Message, CodecFault>
    ensures { result ≡ params_in frame.now }
{
    let host = frame.word(8)?;
    // flags and two reserved words
    frame.run(4, 12, 3)?;
    let stream = stream_params(frame)?;
    Ok(Message::PcmParams {
        host,
        direction: stream.direction,
        params: stream.params,
    })
}

/// stream_params, from byte 24 to 108.
#[tactic(auto, unfolding(crate::specs::Reading::stream_in))]
fn stream_params(frame: &Frame) -> Result<Stream, CodecFault>
    ensures { result ≡ stream_in frame.now }
{
    // size and host buffer
    frame.run(4, 24, 8)?;
    let direction = frame.direction(56)?;
    let format = frame.stream_format(60)?;
    let _buffer_fmt = frame.word(64)?;
    let rate = frame.word(68)?;
    // stream_tag
    frame.run(2, 72, 1)?;
    let channels = frame.channels(74)?;
    // sample_valid_bytes and sample_container_bytes
    frame.run(2, 76, 2)?;
    // host_period_bytes and eight zero bytes
    frame.run(4, 80, 3)?;
    // chmap
    frame.run(2, 92, 8)?;
    Ok(Stream {
        direction,
        params: Params {
            rate,
            channels,
            format,
        },
    })
}
