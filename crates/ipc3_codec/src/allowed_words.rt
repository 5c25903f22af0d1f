// Words that have some values alone.
ghost use Rattle.std.specs.Prelude.{◌≡◌, ◌==◌, true, IfOk};
ghost use Rattle.sof_base.specs.Slots.{word_at, half_at};
ghost use Rattle.ipc3_model.specs.Allowed.{is_buffer_type, is_format_of, is_direction, is_buffer_size, is_period_allowed, is_channels};
ghost use Rattle.ipc3_model.specs.ControlWords.{type_of, takes_command, takes_count, takes_remaining};
ghost use Rattle.ipc3_model.specs.Places.{word_of, half_of};
ghost use Rattle.ipc3_model.specs.Replies.{is_body_type};
ghost use Rattle.ipc3_codec.specs.Reading.{word_in, format_in, comp_type_in, type_in};

use crate::frame::Frame;
use ipc3_model::CodecFault;
use ipc3_model::component_type::{BUFFER, CompType};
use ipc3_model::control_kind::{ControlKind, DATA_SET, VALUE_CHAN_SET};
use sof_base::Format;

impl<'a> Frame<'a> {
    /// The type word of a component.
    #[tactic(auto, unfolding(crate::specs::Reading::word_in, crate::specs::Reading::comp_type_in))]
    pub fn comp_type(&self, at: usize) -> Result<CompType, CodecFault>
        ensures { result ≡ comp_type_in self.now at }
    {
        match CompType::from_number(self.word(at)?) {
            Some(kind) => Ok(kind),
            None => Err(CodecFault::Field(at)),
        }
    }

    /// The type word of a buffer.
    #[tactic(auto, unfolding(crate::specs::Reading::word_in))]
    pub fn buffer_type(&self, at: usize) -> Result<u32, CodecFault>
        ensures read { result ≡ word_in self.now (word_of self.now at is_buffer_type) }
    {
        let kind = self.word(at)?;
        if kind != BUFFER {
            return Err(CodecFault::Field(at));
        }
        Ok(kind)
    }

    /// The frame format of a component of this type: a DAI's is 0 to 2.
    #[tactic(auto, unfolding(crate::specs::Reading::word_in))]
    pub fn frame_format(&self, at: usize, kind: CompType) -> Result<u32, CodecFault>
        ensures read { result ≡ word_in self.now (word_of self.now at (is_format_of kind)) }
        ensures value { IfOk result (λ n. n ≡ word_at self.now at) }
    {
        let format = self.word(at)?;
        match kind {
            CompType::Dai if format > 2 => Err(CodecFault::Field(at)),
            CompType::Dai
            | CompType::Host
            | CompType::Volume
            | CompType::Mixer
            | CompType::Mux
            | CompType::EqIir
            | CompType::Demux => Ok(format),
        }
    }

    /// A stream's frame format.
    #[tactic(auto, unfolding(crate::specs::Reading::word_in, crate::specs::Reading::format_in))]
    pub fn stream_format(&self, at: usize) -> Result<Format, CodecFault>
        ensures { result ≡ format_in self.now at }
    {
        match self.word(at)? {
            0 => Ok(Format::S16),
            1 => Ok(Format::S24),
            2 => Ok(Format::S32),
            _ => Err(CodecFault::Field(at)),
        }
    }

    /// A direction: 0 for playback, 1 for capture.
    #[tactic(auto, unfolding(crate::specs::Reading::word_in))]
    pub fn direction(&self, at: usize) -> Result<u32, CodecFault>
        ensures read { result ≡ word_in self.now (word_of self.now at is_direction) }
        ensures value { IfOk result (λ n. n ≡ word_at self.now at) }
    {
        let direction = self.word(at)?;
        if direction > 1 {
            return Err(CodecFault::Field(at));
        }
        Ok(direction)
    }

    /// How many channels a volume has, 1 to 8.
    #[tactic(auto, unfolding(crate::specs::Reading::word_in))]
    pub fn gains(&self, at: usize) -> Result<u32, CodecFault>
        ensures read { result ≡ word_in self.now (word_of self.now at is_channels) }
        ensures value { IfOk result (λ n. n ≡ word_at self.now at) }
    {
        let channels = self.word(at)?;
        if channels < 1 || channels > 8 {
            return Err(CodecFault::Field(at));
        }
        Ok(channels)
    }

    /// How many channels a stream has, 1 to 8, in two bytes.
    #[tactic(auto, unfolding(crate::specs::Reading::word_in))]
    pub fn channels(&self, at: usize) -> Result<u8, CodecFault>
        ensures read { result ≡ word_in self.now (half_of self.now at is_channels) }
        ensures value { IfOk result (λ n. n ≡ half_at self.now at) }
    {
        let channels = self.half(at)?;
        if channels < 1 || channels > 8 {
            return Err(CodecFault::Field(at));
        }
        Ok(channels as u8)
    }

    /// A buffer's size in bytes.
    #[tactic(auto, unfolding(crate::specs::Reading::word_in))]
    pub fn buffer_size(&self, at: usize) -> Result<u32, CodecFault>
        ensures read { result ≡ word_in self.now (word_of self.now at is_buffer_size) }
        ensures value { IfOk result (λ n. n ≡ word_at self.now at) }
    {
        let size = self.word(at)?;
        if size < 16 || size > 16_777_184 {
            return Err(CodecFault::Field(at));
        }
        Ok(size)
    }

    /// A pipeline's period in µs.
    #[tactic(auto, unfolding(crate::specs::Reading::word_in))]
    pub fn period(&self, at: usize) -> Result<u32, CodecFault>
        ensures read { result ≡ word_in self.now (word_of self.now at is_period_allowed) }
        ensures value { IfOk result (λ n. n ≡ word_at self.now at) }
    {
        let period = self.word(at)?;
        if period < 1000 || period > 10_000 || period % 1000 != 0 {
            return Err(CodecFault::Field(at));
        }
        Ok(period)
    }

    /// The type word of a message on a control.
    #[tactic(auto, unfolding(crate::specs::Reading::word_in))]
    pub fn control_type(&self, at: usize, kind: ControlKind) -> Result<u32, CodecFault>
        ensures read { result ≡ word_in self.now (word_of self.now at (λ n. n == type_of kind)) }
    {
        let number = self.word(at)?;
        if number != kind.type_word() {
            return Err(CodecFault::Field(at));
        }
        Ok(number)
    }

    /// The type word of a reply's body: of values or of a part.
    #[tactic(auto, unfolding(crate::specs::Reading::word_in, crate::specs::Reading::type_in))]
    pub fn body_type(&self, at: usize) -> Result<ControlKind, CodecFault>
        ensures read { result ≡ type_in self.now at }
        ensures sort { IfOk result (λ k. is_body_type (type_of k) ≡ true) }
    {
        match self.word(at)? {
            VALUE_CHAN_SET => Ok(ControlKind::SetValue),
            DATA_SET => Ok(ControlKind::SetData),
            _ => Err(CodecFault::Field(at)),
        }
    }

    /// The command word of a control.
    #[tactic(auto, unfolding(crate::specs::Reading::word_in))]
    pub fn control_command(&self, at: usize, kind: ControlKind) -> Result<u32, CodecFault>
        ensures read { result ≡ word_in self.now (word_of self.now at (takes_command kind)) }
        ensures value { IfOk result (λ n. n ≡ word_at self.now at) }
    {
        let command = self.word(at)?;
        if !kind.takes_command(command) {
            return Err(CodecFault::Field(at));
        }
        Ok(command)
    }

    /// How many elements there are.
    #[tactic(auto, unfolding(crate::specs::Reading::word_in))]
    pub fn count(&self, at: usize, kind: ControlKind) -> Result<u32, CodecFault>
        ensures read { result ≡ word_in self.now (word_of self.now at (takes_count kind)) }
        ensures value { IfOk result (λ n. n ≡ word_at self.now at) }
        ensures taken { IfOk result (λ n. takes_count kind n ≡ true) }
    {
        let count = self.word(at)?;
        if !kind.takes_count(count) {
            return Err(CodecFault::Field(at));
        }
        Ok(count)
    }

    /// How many elements remain after these.
    #[tactic(auto, unfolding(crate::specs::Reading::word_in))]
    pub fn remaining(&self, at: usize, kind: ControlKind, count: u32) -> Result<u32, CodecFault>
        ensures read { result ≡ word_in self.now (word_of self.now at (takes_remaining kind count)) }
        ensures value { IfOk result (λ n. n ≡ word_at self.now at) }
    {
        let remaining = self.word(at)?;
        if !kind.takes_remaining(count, remaining) {
            return Err(CodecFault::Field(at));
        }
        Ok(remaining)
    }

    /// A value's channel, which is its number.
    #[tactic(auto, unfolding(crate::specs::Reading::word_in))]
    pub fn channel(&self, at: usize, number: u32) -> Result<u32, CodecFault>
        ensures read { result ≡ word_in self.now (word_of self.now at (λ c. c == number)) }
    {
        let channel = self.word(at)?;
        if channel != number {
            return Err(CodecFault::Field(at));
        }
        Ok(channel)
    }
}
