//! Reads files and lists of segments (T.88, Annex D).
ghost use Rattle.std.specs.Prelude.{◌≡◌, IfOk, List, length, map, None, Ok, Some};
ghost use Rattle.jbig2_base.specs.Results.{Gives};
ghost use Rattle.jbig2_framing.specs.File.{headers_in, with_data, segments_by, file_at, SpelledSegment, SpellsFile};
ghost use Rattle.jbig2_framing.specs.CutOff.{cut_off_by, data_cut_off, file_cut_off, file_partial, headers_cut_off, partial_by, random_cut_off};
ghost use Rattle.jbig2_framing.specs.declared.file_header.FileHeader.{FileHeader};
ghost use Rattle.jbig2_framing.specs.declared.reading.Reading.{Reading};
ghost use Rattle.jbig2_framing.specs.inner.SegmentViews.{header_views, partial_view, segment_views, file_view};
ghost use Rattle.jbig2_framing.specs.Sequential.{by_number};
ghost use Rattle.jbig2_framing.specs.declared.file_header.FileOrganization.TheVariants.{RandomAccess};

pub use crate::cut_off::CutOff;
use crate::file_header::parse_file_header;
pub use crate::file_header::{FileHeader, FileOrganization};
use crate::reading::Reading;
use crate::segment::{Segment, SegmentHeader, parse_segment_data, parse_segment_header};
use crate::segment_list::is_end_of_file;
pub use crate::segment_list::{SegmentList, parse_segments_sequential};
use crate::sort::sort_segments;
use jbig2_base::error::Result;
use jbig2_base::reader::Reader;
use std::alloc::Allocator;

/// Segment headers in the order of the bytes, and where their list ends early.
#[derive(Drop)]
struct HeaderList<A: Allocator> {
    headers: Vec<SegmentHeader<A>, A>,
    cut_off: Option<CutOff>,
}

/// All segment headers from the reader's place on, up to that of an end of file segment or the end
/// of the bytes (T.88, D.2). Salvage ends before a header that is refused.
fn parse_segment_headers<A: Allocator + Clone>(
    alloc: A,
    reader: &mut Reader<'_>,
    reading: Reading,
) -> Result<HeaderList<A>>
    ensures value { Gives (λ list. (header_views list.headers.items, reader.new.bytes)) result
        (headers_in (length reader.old.bytes) reading reader.old.bytes) }
    ensures cut_off { IfOk result
        (λ list. list.cut_off ≡ headers_cut_off reading reader.old.bytes) }
{
    let mut headers = Vec::new(alloc.clone()?);
    let strict = reading.is_strict();
    while !reader.at_end() {
        match parse_segment_header(alloc.clone()?, reader, strict) {
            Ok(header) => {
                let last = is_end_of_file(header.segment_type);
                headers.push(header)?;
                if last {
                    return Ok(HeaderList {
                        headers,
                        cut_off: None,
                    });
                }
            }
            Err(error) => {
                if reading.is_salvaged(&error) {
                    let cut_off = CutOff::at(alloc, reader, strict, error)?;
                    return Ok(HeaderList {
                        headers,
                        cut_off: Some(cut_off),
                    });
                }
                return Err(error);
            }
        }
    }
    Ok(HeaderList {
        headers,
        cut_off: None,
    })
}

/// The segments with these headers. Their data comes in the same order, from the reader's place on.
/// Salvage drops a segment whose data is refused, and all segments after it.
fn gather_segments<'a, A: Allocator>(
    alloc: A,
    reader: &mut Reader<'a>,
    headers: Vec<SegmentHeader<A>, A>,
    reading: Reading,
) -> Result<SegmentList<'a, A>>
    ensures value { Gives (λ list. segment_views list.segments.items) result
        (with_data reading (header_views headers.items) reader.old.bytes) }
    ensures cut_off { IfOk result
        (λ list. list.cut_off ≡ data_cut_off (header_views headers.items) reader.old.bytes) }
{
    let mut segments = Vec::new(alloc);
    for header in headers {
        let (number, page) = (header.segment_number, header.page_association);
        match parse_segment_data(reader, header) {
            Ok(segment) => segments.push(segment)?,
            Err(error) => {
                if reading.is_salvaged(&error) {
                    let cut_off = Some(CutOff {
                        segment_number: Some(number),
                        page_association: Some(page),
                        error,
                    });
                    return Ok(SegmentList {
                        segments,
                        cut_off,
                        partial: None,
                    });
                }
                return Err(error);
            }
        }
    }
    Ok(SegmentList {
        segments,
        cut_off: None,
        partial: None,
    })
}

/// The segments in the bytes, all headers before all data (T.88, D.2).
///
/// Strict and lenient reading return an error if the bytes end too early.
fn parse_segments_random_access<'a, A: Allocator + Clone>(
    alloc: A,
    bytes: &'a [u8],
    reading: Reading,
) -> Result<SegmentList<'a, A>>
    ensures value { Gives (λ list. segment_views list.segments.items) result
        (segments_by RandomAccess reading bytes.now) }
    ensures cut_off { IfOk result (λ list. list.cut_off ≡ random_cut_off reading bytes.now) }
    ensures partial { IfOk result (λ list. partial_view list.partial ≡ None) }
{
    let mut reader = Reader::new(bytes);
    let HeaderList { headers, cut_off } = parse_segment_headers(
        alloc.clone()?,
        &mut reader,
        reading,
    )?;
    let list = gather_segments(alloc, &mut reader, headers, reading)?;
    Ok(SegmentList {
        segments: list.segments,
        cut_off: cut_off.or(list.cut_off),
        partial: None,
    })
}

fn parse_segments<'a, A: Allocator + Clone>(
    alloc: A,
    bytes: &'a [u8],
    organization: FileOrganization,
    reading: Reading,
) -> Result<SegmentList<'a, A>>
    ensures value { Gives (λ list. segment_views list.segments.items) result
        (segments_by organization reading bytes.now) }
    ensures cut_off { IfOk result
        (λ list. list.cut_off ≡ cut_off_by organization reading bytes.now) }
    ensures partial { IfOk result
        (λ list. partial_view list.partial ≡ partial_by organization reading bytes.now) }
{
    match organization {
        FileOrganization::Sequential => parse_segments_sequential(alloc, bytes, reading),
        FileOrganization::RandomAccess => parse_segments_random_access(alloc, bytes, reading),
    }
}

/// A file (T.88, Annex D): its header, and its segments in the order of their numbers.
#[derive(Debug, Drop)]
pub struct File<'a, A: Allocator> {
    pub header: FileHeader,
    /// Segments of equal number keep their order in the file.
    pub segments: Vec<Segment<'a, A>, A>,
    /// The segment at which their list ends early, if it does.
    pub cut_off: Option<CutOff>,
    /// What is there of that segment, as `SegmentList` has it.
    pub partial: Option<Segment<'a, A>>,
}

#[tactic(auto, unfolding(crate::specs::File::file_at, crate::specs::CutOff::file_cut_off, crate::specs::CutOff::file_partial))]
fn read_file<'a, A: Allocator + Clone>(
    alloc: A,
    bytes: &'a [u8],
    reading: Reading,
) -> Result<File<'a, A>>
    ensures value { Gives file_view result (file_at reading bytes.now) }
    ensures cut_off { IfOk result (λ file. file.cut_off ≡ file_cut_off reading bytes.now) }
    ensures partial { IfOk result
        (λ file. partial_view file.partial ≡ file_partial reading bytes.now) }
{
    let mut reader = Reader::new(bytes);
    let header = parse_file_header(&mut reader)?;
    let mut list = parse_segments(alloc, reader.tail(), header.organization, reading)?;
    sort_segments(&mut list.segments)?;
    Ok(File {
        header,
        segments: list.segments,
        cut_off: list.cut_off,
        partial: list.partial,
    })
}

/// Reads the file in `bytes` (T.88, Annex D).
///
/// Returns the first error of the header (`FormatError`) or of a segment (`SegmentError`, or
/// `ParseError` if the bytes end too early), or `DecodeError::OutOfMemory`. Salvage ends before a
/// segment that is refused. Either organization gives the same segments: if the bytes are a header
/// and segments that the reading accepts, each of known length and the last one the only end of
/// file, the file has those.
pub fn parse_file<'a, A: Allocator + Clone>(
    alloc: A,
    bytes: &'a [u8],
    reading: Reading,
) -> Result<File<'a, A>>
    ensures value { Gives file_view result (file_at reading bytes.now) }
    ensures either_organization { (header : FileHeader) (ss : List SpelledSegment)
        → SpellsFile reading bytes.now header ss
        → Gives file_view result (Ok (header, by_number (map (λ s. s.segment) ss))) }
    ensures cut_off { IfOk result (λ file. file.cut_off ≡ file_cut_off reading bytes.now) }
    ensures partial { IfOk result
        (λ file. partial_view file.partial ≡ file_partial reading bytes.now) }
{
    read_file(alloc, bytes, reading)
}
