// Worked rows, which the definitions give by computing alone.
ghost use Rattle.std.specs.Prelude.{◌≡◌, [], ◌∷◌, pos, negsuc, false};
ghost use Rattle.sof_base.specs.Samples.{sample_in_of, sample_out_of};
ghost use Rattle.sof_base.specs.Equations.{amplified, mixed, after_section};
ghost use Rattle.sof_base.specs.Ramps.{ramp_of, ramp_frames, ramp_gain, ramped_of};
ghost use Rattle.sof_base.specs.Masks.{kept_of};
ghost use Rattle.sof_base.specs.Holes.{rounded, fresh_holes, fits, first_fit, carved, given};

use crate::format::Format;

/// Rows of samples; nothing runs here.
/// - The greatest sample of 32 bits is written in 24 bits as `ff ff 7f 00`.
/// - Sample 32767 of 16 bits under gain 52056 is written as 26027, bytes `ab 65`.
/// - A mixer of 2147483647, 1 and -2147483648 gives 0: the sum is held once, at its end.
/// - A section that takes half of its input and half of its last inner value makes 500, 250, 125 of 1000, 0, 0.
#[tactic(auto, unfolding(crate::specs::Slots::half_at, crate::specs::Slots::word_at))]
pub fn sample_rows()
    ensures greatest { sample_out_of Format.S24 (sample_in_of Format.S32 (255 ∷ 255 ∷ 255 ∷ 127 ∷ []) 0) ≡ 255 ∷ 255 ∷ 127 ∷ 0 ∷ [] }
    ensures quieter { sample_out_of Format.S16 (amplified 52056 (sample_in_of Format.S16 (255 ∷ 127 ∷ []) 0)) ≡ 171 ∷ 101 ∷ [] }
    ensures held_once { mixed 1 ((pos 2147483647 ∷ []) ∷ (pos 1 ∷ []) ∷ (negsuc 2147483647 ∷ []) ∷ []) ≡ pos 0 ∷ [] }
    ensures halves { after_section (record { a2 = pos 0; a1 = pos 536870912; b2 = pos 0; b1 = pos 0; b0 = pos 536870912; shift = pos 0; gain = pos 16384 }) (pos 1000 ∷ pos 0 ∷ pos 0 ∷ []) ≡ pos 500 ∷ pos 250 ∷ pos 125 ∷ [] }
{}

/// Rows of a ramp of 1 millisecond at 48000 frames a second, from gain 65536 to 0, over samples 1000; nothing runs here.
/// - It has 48 frames.
/// - Frames 0, 1, 23 and 47 are 64170000, 62805000, 32768000 and 0, and each later one is 0.
/// - A gain that rises by 100 over 48 frames is 2 at frame 0 and 100 at frame 47; one that falls by 100 is 97 at frame 0.
/// - Of another type of ramp nothing is left, and of 20000 milliseconds 10000.
pub fn ramp_rows()
    ensures frames { ramp_frames 1 48000 ≡ 48 }
    ensures first { ramped_of 2 (65536 ∷ 65536 ∷ []) (0 ∷ 0 ∷ []) 48 0 (pos 65536000 ∷ pos 65536000 ∷ []) ≡ pos 64170000 ∷ pos 64170000 ∷ [] }
    ensures second { ramped_of 2 (65536 ∷ 65536 ∷ []) (0 ∷ 0 ∷ []) 48 1 (pos 65536000 ∷ pos 65536000 ∷ []) ≡ pos 62805000 ∷ pos 62805000 ∷ [] }
    ensures middle { ramped_of 2 (65536 ∷ 65536 ∷ []) (0 ∷ 0 ∷ []) 48 23 (pos 65536000 ∷ pos 65536000 ∷ []) ≡ pos 32768000 ∷ pos 32768000 ∷ [] }
    ensures last { ramped_of 2 (65536 ∷ 65536 ∷ []) (0 ∷ 0 ∷ []) 48 47 (pos 65536000 ∷ pos 65536000 ∷ []) ≡ pos 0 ∷ pos 0 ∷ [] }
    ensures later { ramped_of 2 (65536 ∷ 65536 ∷ []) (0 ∷ 0 ∷ []) 48 1000 (pos 65536000 ∷ pos 65536000 ∷ []) ≡ pos 0 ∷ pos 0 ∷ [] }
    ensures rising { ramp_gain 0 100 48 0 ≡ 2 }
    ensures risen { ramp_gain 0 100 48 47 ≡ 100 }
    ensures falling { ramp_gain 100 0 48 0 ≡ 97 }
    ensures other { ramp_of 1 20 ≡ 0 }
    ensures long { ramp_of 0 20000 ≡ 10000 }
{}

/// Rows of a demux's masks; nothing runs here. By mask 2 the second of two channels is kept, by 255 both, by 4 neither.
pub fn mask_rows()
    ensures second { kept_of 2 2 (pos 2147418112 ∷ pos 2147418112 ∷ []) ≡ pos 0 ∷ pos 2147418112 ∷ [] }
    ensures all { kept_of 2 255 (pos 5 ∷ pos 7 ∷ []) ≡ pos 5 ∷ pos 7 ∷ [] }
    ensures none { kept_of 2 4 (pos 5 ∷ pos 7 ∷ []) ≡ pos 0 ∷ pos 0 ∷ [] }
{}

/// Rows of a heap of 64 bytes; nothing runs here. 17 bytes take 32, 32 take the rest, and then 1 is refused. Once the
/// first piece is given back 33 are refused, and 16 stand at its place.
pub fn hole_rows()
    ensures first { carved (rounded 17) (fresh_holes 64) ≡ record { place = 32; size = 32 } ∷ [] }
    ensures first_place { first_fit (rounded 17) (fresh_holes 64) ≡ 0 }
    ensures rest { carved (rounded 32) (record { place = 32; size = 32 } ∷ []) ≡ [] }
    ensures full { fits (rounded 1) [] ≡ false }
    ensures back { given (record { place = 0; size = 32 }) [] ≡ record { place = 0; size = 32 } ∷ [] }
    ensures too_great { fits (rounded 33) (record { place = 0; size = 32 } ∷ []) ≡ false }
    ensures again { carved (rounded 16) (record { place = 0; size = 32 } ∷ []) ≡ record { place = 16; size = 16 } ∷ [] }
    ensures whole { given (record { place = 0; size = 32 }) (record { place = 32; size = 32 } ∷ []) ≡ fresh_holes 64 }
{}
