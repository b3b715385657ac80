//! Reads segments one after the other, each header with its data after it (T.88, D.1 and D.3).
ghost use Rattle.std.specs.Prelude.{◌≡◌, IfOk};
ghost use Rattle.jbig2_base.specs.Results.{Gives};
ghost use Rattle.jbig2_framing.specs.CutOff.{sequence_cut_off, sequence_partial};
ghost use Rattle.jbig2_framing.specs.declared.reading.Reading.{Reading};
ghost use Rattle.jbig2_framing.specs.inner.SegmentViews.{partial_view, segment_views};
ghost use Rattle.jbig2_framing.specs.Sequential.{is_cut_off, is_end_of_file, sequential};

use crate::cut_off::CutOff;
use crate::reading::Reading;
use crate::segment::{Segment, SegmentType, parse_segment, partial_segment};
use jbig2_base::error::{DecodeError, Result};
use jbig2_base::reader::Reader;
use std::alloc::Allocator;

/// Whether the segments end before one that is refused with this error. Lenient reading drops a
/// segment that is cut off.
fn is_cut_off(reading: Reading, error: &DecodeError) -> bool
    ensures { result ≡ is_cut_off reading error.now }
{
    match (reading, error) {
        (Reading::Lenient, DecodeError::Parse(_)) => true,
        _ => reading.is_salvaged(error),
    }
}

pub(crate) fn is_end_of_file(kind: SegmentType) -> bool
    ensures { result ≡ is_end_of_file kind }
{
    matches!(kind, SegmentType::EndOfFile)
}

/// Segments in the order of the bytes, and where their list ends early.
#[derive(Debug, Drop)]
pub struct SegmentList<'a, A: Allocator> {
    pub segments: Vec<Segment<'a, A>, A>,
    /// The segment at which the list ends early, if it does.
    pub cut_off: Option<CutOff>,
    /// What is there of that segment, with all bytes after its header. None in random access, and where
    /// its header is refused or leaves the data length open.
    pub partial: Option<Segment<'a, A>>,
}

/// The segments in the bytes, each header with its data after it, up to an end of file segment or
/// the end of the bytes (T.88, D.1 and D.3).
///
/// Lenient reading drops a segment that is cut off, and ends there. Salvage ends before any segment
/// that is refused. Every other error is returned.
pub fn parse_segments_sequential<'a, A: Allocator + Clone>(
    alloc: A,
    bytes: &'a [u8],
    reading: Reading,
) -> Result<SegmentList<'a, A>>
    ensures value { Gives (λ list. segment_views list.segments.items) result
        (sequential reading bytes.now) }
    ensures cut_off { IfOk result (λ list. list.cut_off ≡ sequence_cut_off reading bytes.now) }
    ensures partial { IfOk result
        (λ list. partial_view list.partial ≡ sequence_partial reading bytes.now) }
{
    let mut reader = Reader::new(bytes);
    let mut segments = Vec::new(alloc.clone()?);
    let strict = reading.is_strict();
    while !reader.at_end() {
        match parse_segment(alloc.clone()?, &mut reader, strict) {
            Ok(segment) => {
                let last = is_end_of_file(segment.header.segment_type);
                segments.push(segment)?;
                if last {
                    return Ok(SegmentList {
                        segments,
                        cut_off: None,
                        partial: None,
                    });
                }
            }
            Err(error) => {
                if is_cut_off(reading, &error) {
                    let cut_off = CutOff::at(alloc.clone()?, &reader, strict, error)?;
                    let partial = partial_segment(alloc, &reader, strict)?;
                    return Ok(SegmentList {
                        segments,
                        cut_off: Some(cut_off),
                        partial,
                    });
                }
                return Err(error);
            }
        }
    }
    Ok(SegmentList {
        segments,
        cut_off: None,
        partial: None,
    })
}
