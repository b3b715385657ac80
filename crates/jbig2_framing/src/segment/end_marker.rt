//! Finds the end of data of unknown length (T.88, 7.2.7).
ghost use Rattle.std.specs.Prelude.{◌≡◌, ◌+◌, ◌≤◌, length, IfOk, None};
ghost use Rattle.std.specs.Bool.{OnTrue};
ghost use Rattle.jbig2_base.specs.Results.{Returns};
ghost use Rattle.jbig2_base.specs.Causes.{HasCause};
ghost use Rattle.jbig2_framing.specs.Causes.{BreaksData};
ghost use Rattle.jbig2_framing.specs.Segment.{adaptive_byte_count, is_end_marker, first_end_marker, unknown_length_of};
ghost use Rattle.jbig2_framing.specs.inner.Fronts.{coded_front_at};

use jbig2_base::error::{Result, SegmentError};
use jbig2_base::field::{byte_field, bytes_field};
use jbig2_base::reader::Reader;

/// How many bytes of adaptive pixels a generic region has, by its flags (T.88, 7.4.6.3).
fn adaptive_byte_count(flags: u8) -> usize
    ensures { result ≡ adaptive_byte_count flags }
{
    if flags % 2 == 1 {
        return 0;
    }
    if flags / 2 % 4 != 0 {
        return 2;
    }
    if flags / 16 % 2 == 1 { 24 } else { 8 }
}

fn is_end_marker(flags: u8, bytes: &[u8]) -> bool
    ensures value { result ≡ is_end_marker flags bytes.now }
    ensures room { OnTrue result (6 ≤ length bytes.now) }
{
    if bytes.len() < 6 {
        return false;
    }
    if flags % 2 == 1 {
        return bytes[0] == 0 && bytes[1] == 0;
    }
    bytes[0] == 0xFF && bytes[1] == 0xAC
}

/// The place of the first end marker in `bytes`.
fn first_end_marker(flags: u8, bytes: &[u8]) -> Result<usize>
    ensures value { Returns (λ place. place) result (first_end_marker flags bytes.now) }
    ensures inside { IfOk result (λ place. place + 6 ≤ length bytes.now) }
{
    for place in 0..bytes.len() {
        if is_end_marker(flags, &bytes[place..]) {
            return Ok(place);
        }
    }
    Err(SegmentError::MissingEndMarker.into())
}

/// A generic region's flags. The reader is then after its adaptive pixels.
#[tactic(auto, unfolding(crate::specs::inner::Fronts::coded_front_at))]
fn coded_front(reader: &mut Reader<'_>) -> Result<u8>
    ensures value { Returns (λ flags. (flags, reader.new.bytes)) result
        (coded_front_at reader.old.bytes) }
    ensures length { IfOk result
        (λ flags. length reader.new.bytes + 18 + adaptive_byte_count flags ≡ length reader.old.bytes) }
{
    bytes_field(reader, 17)?;
    let flags = byte_field(reader)?;
    bytes_field(reader, adaptive_byte_count(flags))?;
    Ok(flags)
}

/// The length of the data at the front of `bytes`, if its header does not state it.
///
/// Returns `SegmentError::MissingEndMarker` if there is no end marker.
#[tactic(auto, using(crate::proofs::DataCauses::unknown_cause))]
pub(super) fn unknown_length(bytes: &[u8]) -> Result<usize>
    ensures causes { HasCause result (BreaksData None bytes.now) }
    ensures value { Returns (λ n. n) result (unknown_length_of bytes.now) }
{
    let mut reader = Reader::new(bytes);
    let flags = coded_front(&mut reader)?;
    let place = first_end_marker(flags, reader.tail())?;
    Ok(18 + adaptive_byte_count(flags) + place + 6)
}
