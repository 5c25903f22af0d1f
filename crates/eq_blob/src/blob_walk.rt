// The walk over a blob: each part in the order in which it stands.
ghost use Rattle.std.specs.Prelude.{◌≡◌, ◌≤◌, ◌↔◌, ◌+◌, ◌*◌, ◌&&◌, nat_le, length, None, IfOk, OnOk, IsOk, ◌↔◌};
ghost use Rattle.std.specs.List.{flat_map, range_with_len};
ghost use Rattle.sof_base.specs.Blob as form;
ghost use Rattle.sof_base.specs.BlobParts as blob_parts;
ghost use Rattle.sof_base.specs.BlobFaults as law;
ghost use Rattle.eq_blob.specs.Faults.{said, told};

use crate::fault::EqFault;
use sof_base::word;

const MAGIC: u32 = 0x0046_4F53;

fn is_count(n: u32) -> bool
    ensures { result ≡ form.is_count n }
{
    1 <= n && n <= 8
}

fn is_assignment(assignment: i32, responses: u32) -> bool
    ensures { result ≡ form.is_assignment responses assignment }
{
    -1 <= assignment && (assignment as i64) < responses as i64
}

fn is_shift(shift: i32) -> bool
    ensures { result ≡ form.is_shift shift }
{
    -13 <= shift && shift <= 31
}

fn has_size(blob: &[u8]) -> bool
    ensures { result ≡ (nat_le 60 (length blob.now) && nat_le (length blob.now) 1024) }
{
    60 <= blob.len() && blob.len() <= 1024
}

/// The header and the head.
fn check_head(blob: &[u8]) -> Result<(), EqFault>
    ensures { told result ≡ law.first_fault (law.head_tests blob.now) }
{
    if !has_size(blob) {
        Err(EqFault::Size)
    } else if word(blob, 0) != MAGIC {
        Err(EqFault::Magic)
    } else if word(blob, 8) as usize != blob.len() - 32 {
        Err(EqFault::HeaderSize)
    } else if !is_count(word(blob, 36)) {
        Err(EqFault::Channels)
    } else if !is_count(word(blob, 40)) {
        Err(EqFault::Responses)
    } else {
        Ok(())
    }
}

/// A channel's assignment.
fn check_assignment(blob: &[u8], channel: u32) -> Result<(), EqFault>
    requires { 60 ≤ length blob.now }
    ensures told { told result ≡ law.first_fault (law.assignment_tests blob.now channel) }
    ensures end { OnOk result (60 + 4 * channel + 4 ≤ length blob.now) }
{
    let place = 60 + 4 * channel as usize;
    if place + 4 > blob.len() {
        Err(EqFault::Length)
    } else if !is_assignment(word(blob, place).cast_signed(), word(blob, 40)) {
        Err(EqFault::Assignment(channel))
    } else {
        Ok(())
    }
}

/// All assignments.
fn check_assignments(blob: &[u8]) -> Result<(), EqFault>
    requires { 60 ≤ length blob.now }
    ensures told { told result ≡ law.first_fault (flat_map (law.assignment_tests blob.now) (range_with_len 0 (form.blob_channels blob.now))) }
    ensures end { OnOk result (60 + 4 * form.blob_channels blob.now ≤ length blob.now) }
{
    let channels = word(blob, 36);
    for channel in 0..channels {
        check_assignment(blob, channel)?;
    }
    Ok(())
}

/// A section.
fn check_section(blob: &[u8], place: usize, response: u32, section: u32) -> Result<(), EqFault>
    requires at { place ≡ form.section_place blob.now response section }
    requires there { place ≤ length blob.now }
    ensures told { told result ≡ law.first_fault (law.section_tests blob.now response section) }
    ensures end { OnOk result (place + 28 ≤ length blob.now) }
{
    if blob.len() - place < 28 {
        Err(EqFault::Length)
    } else if !is_shift(word(blob, place + 20).cast_signed()) {
        Err(EqFault::Shift(response, section))
    } else {
        Ok(())
    }
}

/// The sections of a response.
fn check_sections(blob: &[u8], place: usize, response: u32) -> Result<(), EqFault>
    requires at { place ≡ form.response_at blob.now response }
    requires there { place + 24 ≤ length blob.now }
    ensures told { told result ≡ law.first_fault (flat_map (law.section_tests blob.now response) (range_with_len 0 (form.section_count blob.now response))) }
    ensures end { OnOk result (form.section_place blob.now response (form.section_count blob.now response) ≤ length blob.now) }
{
    for section in 0..word(blob, place) {
        check_section(blob, place + 24 + 28 * section as usize, response, section)?;
    }
    Ok(())
}

/// The head of a response.
fn check_counts(blob: &[u8], place: usize, response: u32) -> Result<(), EqFault>
    requires at { place ≡ form.response_at blob.now response }
    requires there { place ≤ length blob.now }
    ensures told { told result ≡ law.first_fault (law.counts_tests blob.now response) }
    ensures end { OnOk result (place + 24 ≤ length blob.now) }
{
    if blob.len() - place < 24 {
        Err(EqFault::Length)
    } else if !is_count(word(blob, place)) || word(blob, place + 4) != word(blob, place) {
        Err(EqFault::Sections(response))
    } else {
        Ok(())
    }
}

/// A response. Ok has the place after it.
fn check_response(blob: &[u8], place: usize, response: u32) -> Result<usize, EqFault>
    requires at { place ≡ form.response_at blob.now response }
    requires there { place ≤ length blob.now }
    ensures told { told result ≡ law.first_fault (law.response_tests blob.now response) }
    ensures end { IfOk result (λ next. (next ≡ form.response_at blob.now (response + 1)) × (next ≤ length blob.now)) }
{
    check_counts(blob, place, response)?;
    check_sections(blob, place, response)?;
    Ok(place + 24 + 28 * word(blob, place) as usize)
}

/// All responses.
fn check_responses(blob: &[u8]) -> Result<(), EqFault>
    requires { 60 + 4 * form.blob_channels blob.now ≤ length blob.now }
    ensures { told result ≡ law.first_fault (flat_map (law.response_tests blob.now) (range_with_len 0 (form.blob_responses blob.now))) }
{
    let mut place = 60 + 4 * word(blob, 36) as usize;
    for response in 0..word(blob, 40) {
        place = check_response(blob, place, response)?;
    }
    Ok(())
}

/// The first fault of a blob's tests.
#[tactic(auto, unfolding(sof_base::specs::BlobFaults::blob_fault))]
fn walk(blob: &[u8]) -> Result<(), EqFault>
    ensures { told result ≡ law.blob_fault blob.now }
{
    check_head(blob)?;
    check_assignments(blob)?;
    check_responses(blob)
}

/// Whether bytes are a blob that the equaliser can take. The error is the first fault that a walk over them meets.
pub fn check(blob: &[u8]) -> Result<(), EqFault>
    ensures blob { IsOk result ↔ blob_parts.IsBlob blob.now }
    ensures fault { told result ≡ law.blob_fault blob.now }
{
    walk(blob)
}
