//! Reads segments: headers and data (T.88, 7.2 and 7.3).
ghost use Rattle.std.specs.Prelude.{◌≡◌, ◌+◌, ◌*◌, ◌/◌, ◌%◌, ◌^◌, ◌<◌, ◌≤◌, ◌==◌, ◌&&◌, if◌then◌else◌, Bool, nat_le, take, drop, length, OnOk, IfOk, IfSome, Ok, OnErr};
ghost use Rattle.std.specs.Int.{w8, w32, byte_len, from_be_bytes};
ghost use Rattle.std.specs.List.{list_any};
ghost use Rattle.std.specs.Option.{ForSome};
ghost use Rattle.std.specs.Bool.{OnTrue};
ghost use Rattle.jbig2_base.specs.Results.{Returns, Gives};
ghost use Rattle.jbig2_base.specs.Causes.{HasCause, HasCauseOrNoMemory};
ghost use Rattle.jbig2_framing.specs.Causes.{BreaksHeader, BreaksData};
ghost use Rattle.jbig2_framing.specs.CutOff.{partial_at};
ghost use Rattle.jbig2_base.specs.Fields.{number_at, Parses, Takes};
ghost use Rattle.jbig2_framing.specs.Segment.{Header, is_partial, type_of, is_reserved, is_immediate_generic, long_count_at, count_at, number_width, numbers_in, referred_at, length_of, header_at, data_at, segment_data_at, segment_at};
ghost use Rattle.jbig2_framing.specs.inner.SegmentViews.{header_view, partial_view, segment_view};

mod end_marker;

use end_marker::unknown_length;
use jbig2_base::error::{DecodeError, Result, SegmentError};
use jbig2_base::field::{byte_field, bytes_field, u32_field};
use jbig2_base::reader::Reader;
use std::alloc::Allocator;

/// What a segment holds (T.88, 7.3). `Reserved` is every number that is not in the list there.
#[derive(Clone, Copy, Debug, PartialEq, Eq)]
pub enum SegmentType {
    SymbolDictionary,
    IntermediateTextRegion,
    ImmediateTextRegion,
    ImmediateLosslessTextRegion,
    PatternDictionary,
    IntermediateHalftoneRegion,
    ImmediateHalftoneRegion,
    ImmediateLosslessHalftoneRegion,
    IntermediateGenericRegion,
    ImmediateGenericRegion,
    ImmediateLosslessGenericRegion,
    IntermediateGenericRefinementRegion,
    ImmediateGenericRefinementRegion,
    ImmediateLosslessGenericRefinementRegion,
    PageInformation,
    EndOfPage,
    EndOfStripe,
    EndOfFile,
    Profiles,
    Tables,
    ColourPalette,
    Extension,
    Reserved,
}

impl SegmentType {
    /// The type with this number.
    #[tactic(auto, unfolding(crate::specs::Segment::type_of))]
    pub fn from_type_value(value: u8) -> SegmentType
        ensures { result ≡ type_of value }
    {
        match value {
            0 => SegmentType::SymbolDictionary,
            4 => SegmentType::IntermediateTextRegion,
            6 => SegmentType::ImmediateTextRegion,
            7 => SegmentType::ImmediateLosslessTextRegion,
            16 => SegmentType::PatternDictionary,
            20 => SegmentType::IntermediateHalftoneRegion,
            22 => SegmentType::ImmediateHalftoneRegion,
            23 => SegmentType::ImmediateLosslessHalftoneRegion,
            36 => SegmentType::IntermediateGenericRegion,
            38 => SegmentType::ImmediateGenericRegion,
            39 => SegmentType::ImmediateLosslessGenericRegion,
            40 => SegmentType::IntermediateGenericRefinementRegion,
            42 => SegmentType::ImmediateGenericRefinementRegion,
            43 => SegmentType::ImmediateLosslessGenericRefinementRegion,
            48 => SegmentType::PageInformation,
            49 => SegmentType::EndOfPage,
            50 => SegmentType::EndOfStripe,
            51 => SegmentType::EndOfFile,
            52 => SegmentType::Profiles,
            53 => SegmentType::Tables,
            54 => SegmentType::ColourPalette,
            62 => SegmentType::Extension,
            _ => SegmentType::Reserved,
        }
    }

    /// Whether the number is not in the list.
    pub fn is_reserved(self) -> bool
        ensures { result ≡ is_reserved self }
    {
        matches!(self, SegmentType::Reserved)
    }

    fn is_immediate_generic(self) -> bool
        ensures { result ≡ is_immediate_generic self }
    {
        matches!(self, SegmentType::ImmediateGenericRegion)
    }
}

/// A segment header (T.88, 7.2.2 to 7.2.7).
#[derive(Debug, Drop)]
pub struct SegmentHeader<A: Allocator> {
    pub segment_number: u32,
    pub segment_type: SegmentType,
    /// Whether later segments may refer to this one.
    pub retain_flag: bool,
    /// The page's number, 0 for a segment of no page.
    pub page_association: u32,
    pub referred_to_segments: Vec<u32, A>,
    /// The length of the data in bytes, None if it is unknown.
    pub data_length: Option<u32>,
}

/// A segment: its header, and its data as a slice of the input.
#[derive(Debug, Drop)]
pub struct Segment<'a, A: Allocator> {
    pub header: SegmentHeader<A>,
    pub bytes: &'a [u8],
}

#[tactic(auto, unfolding(crate::specs::Segment::long_count_at))]
fn long_count(reader: &mut Reader<'_>, high: u8) -> Result<u32>
    requires small { high < 32 }
    ensures value { Returns (λ x. (x, reader.new.bytes)) result
        (long_count_at high reader.old.bytes) }
    ensures bound { IfOk result (λ n. n < 2 ^ 29) }
    ensures shorter { OnOk result (length reader.new.bytes ≤ length reader.old.bytes) }
{
    let low = bytes_field(reader, 3)?;
    let count = u32::from_be_bytes([high, low[0], low[1], low[2]]);
    bytes_field(reader, (count as usize + 8) / 8)?;
    Ok(count)
}

fn short_or_long_count(reader: &mut Reader<'_>, first: u8) -> Result<u32>
    ensures value { Returns (λ x. (x, reader.new.bytes)) result
        (if first / 32 == 7 then long_count_at (first % 32) reader.old.bytes
        else Ok (first / 32, reader.old.bytes)) }
    ensures bound { IfOk result (λ n. n < 2 ^ 29) }
    ensures shorter { OnOk result (length reader.new.bytes ≤ length reader.old.bytes) }
{
    if first / 32 == 7 {
        return long_count(reader, first % 32);
    }
    Ok(u32::from(first / 32))
}

/// The count of referred segments (T.88, 7.2.4).
#[tactic(auto, unfolding(crate::specs::Segment::count_at))]
fn referred_count(reader: &mut Reader<'_>) -> Result<u32>
    ensures value { Returns (λ x. (x, reader.new.bytes)) result (count_at reader.old.bytes) }
    ensures bound { IfOk result (λ n. n < 2 ^ 29) }
    ensures shorter { OnOk result (length reader.new.bytes ≤ length reader.old.bytes) }
{
    let first = byte_field(reader)?;
    if first / 32 == 5 || first / 32 == 6 {
        return Err(SegmentError::InvalidReferredCount.into());
    }
    short_or_long_count(reader, first)
}

/// How many bytes a referred number has; this depends on the segment's own number (T.88, 7.2.5).
fn number_size(own: u32) -> usize
    ensures { result ≡ byte_len (number_width own) }
{
    if own <= 256 {
        1
    } else if own <= 65536 {
        2
    } else {
        4
    }
}

fn coded_number(own: u32, bytes: &[u8]) -> u32
    requires { byte_len (number_width own) ≤ length bytes.now }
    ensures { let w = number_width own in
        result ≡ from_be_bytes w (take (byte_len w) bytes.now) }
{
    if own <= 256 {
        return u32::from(bytes[0]);
    }
    if own <= 65536 {
        return u32::from(u16::from_be_bytes([bytes[0], bytes[1]]));
    }
    u32::from_be_bytes([bytes[0], bytes[1], bytes[2], bytes[3]])
}

fn numbers_in<A: Allocator>(alloc: A, own: u32, count: u32, bytes: &[u8]) -> Result<Vec<u32, A>>
    requires { length bytes.now ≡ count * byte_len (number_width own) }
    ensures { Gives (λ v. v.items) result (Ok (numbers_in (number_width own) count bytes.now)) }
{
    let size = number_size(own);
    let mut numbers = Vec::new(alloc);
    for index in 0..count as usize {
        numbers.push(coded_number(own, &bytes[index * size..]))?;
    }
    Ok(numbers)
}

fn is_any_later(numbers: &[u32], own: u32) -> bool
    ensures { result ≡ list_any (λ n. nat_le own n) numbers.now }
{
    numbers.iter().any(|number| own <= *number)
}

/// The numbers of the segments that this one refers to (T.88, 7.2.5).
#[tactic(auto, unfolding(crate::specs::Segment::referred_at))]
fn referred_numbers<A: Allocator>(
    alloc: A,
    reader: &mut Reader<'_>,
    own: u32,
) -> Result<Vec<u32, A>>
    ensures value { Gives (λ v. (v.items, reader.new.bytes)) result
        (referred_at own reader.old.bytes) }
    ensures shorter { OnOk result (length reader.new.bytes ≤ length reader.old.bytes) }
{
    let count = referred_count(reader)?;
    let bytes = bytes_field(reader, count as usize * number_size(own))?;
    let numbers = numbers_in(alloc, own, count, bytes)?;
    if is_any_later(&numbers, own) {
        return Err(SegmentError::InvalidReference.into());
    }
    Ok(numbers)
}

/// The page association, in one byte or four (T.88, 7.2.6).
fn page_association(reader: &mut Reader<'_>, long: bool) -> Result<u32>
    ensures value { Returns (λ x. (x, reader.new.bytes)) result
        (number_at (if long then w32 else w8) reader.old.bytes) }
    ensures shorter { OnOk result (length reader.new.bytes ≤ length reader.old.bytes) }
{
    if long {
        return u32_field(reader);
    }
    let number = byte_field(reader)?;
    Ok(u32::from(number))
}

fn data_length(strict: bool, kind: SegmentType, number: u32) -> Result<Option<u32>>
    ensures { Returns (λ length. length) result (length_of strict kind number) }
{
    if number != u32::MAX {
        return Ok(Some(number));
    }
    if strict && !kind.is_immediate_generic() {
        return Err(SegmentError::InvalidUnknownLength.into());
    }
    Ok(None)
}

/// A segment header at the reader's place (T.88, 7.2).
///
/// In strict mode a type that is not in the list returns `SegmentError::UnknownType`. An unknown
/// length returns `SegmentError::InvalidUnknownLength` unless the segment is an immediate generic
/// region. An error leaves the reader where it was.
#[tactic(auto, unfolding(crate::specs::Segment::header_at))]
pub fn parse_segment_header<A: Allocator>(
    alloc: A,
    reader: &mut Reader<'_>,
    strict: bool,
) -> Result<SegmentHeader<A>>
    ensures causes { HasCauseOrNoMemory result (BreaksHeader strict reader.old.bytes) }
    ensures parses { Takes reader.old reader.new result header_view
        (header_at strict reader.old.bytes) }
    ensures taken { OnOk result (length reader.new.bytes < length reader.old.bytes) }
{
    let mut ahead = reader.duplicate();
    let segment_number = u32_field(&mut ahead)?;
    let flags = byte_field(&mut ahead)?;
    let segment_type = SegmentType::from_type_value(flags % 64);
    if strict && segment_type.is_reserved() {
        return Err(SegmentError::UnknownType.into());
    }
    let referred_to_segments = referred_numbers(alloc, &mut ahead, segment_number)?;
    let page_association = page_association(&mut ahead, flags / 64 % 2 == 1)?;
    let number = u32_field(&mut ahead)?;
    let data_length = data_length(strict, segment_type, number)?;
    *reader = ahead;
    Ok(SegmentHeader {
        segment_number,
        segment_type,
        retain_flag: flags / 128 == 0,
        page_association,
        referred_to_segments,
        data_length,
    })
}

fn segment_bytes<'a>(reader: &mut Reader<'a>, data_length: Option<u32>) -> Result<&'a [u8]>
    ensures { Parses reader.old reader.new result (λ x. x.now)
        (data_at data_length reader.old.bytes) }
{
    match data_length {
        Some(length) => bytes_field(reader, length as usize),
        None => {
            let length = unknown_length(reader.tail())?;
            bytes_field(reader, length)
        }
    }
}

/// The data of a segment, at the reader's place: after its header, or where the data of all
/// segments is (T.88, 7.2.7 and Annex D).
///
/// Data of unknown length ends with the first end marker. If there is none, the call returns
/// `SegmentError::MissingEndMarker` and leaves the reader where it was. Takes no memory.
#[tactic(auto, using(crate::proofs::DataCauses::data_cause))]
pub fn parse_segment_data<'a, A: Allocator>(
    reader: &mut Reader<'a>,
    header: SegmentHeader<A>,
) -> Result<Segment<'a, A>>
    ensures causes { HasCause result (BreaksData header.data_length reader.old.bytes) }
    ensures parses { Parses reader.old reader.new result segment_view
        (segment_data_at (header_view header) reader.old.bytes) }
{
    let bytes = segment_bytes(reader, header.data_length)?;
    Ok(Segment { header, bytes })
}

/// A segment at the reader's place: its header and the data after it (T.88, 7.2). An error leaves
/// the reader where it was.
#[tactic(auto, unfolding(crate::specs::Segment::segment_at))]
pub fn parse_segment<'a, A: Allocator>(
    alloc: A,
    reader: &mut Reader<'a>,
    strict: bool,
) -> Result<Segment<'a, A>>
    ensures parses { Takes reader.old reader.new result segment_view
        (segment_at strict reader.old.bytes) }
    ensures taken { OnOk result (length reader.new.bytes < length reader.old.bytes) }
{
    let mut ahead = reader.duplicate();
    let header = parse_segment_header(alloc, &mut ahead, strict)?;
    let segment = parse_segment_data(&mut ahead, header)?;
    *reader = ahead;
    Ok(segment)
}

/// What is there of the segment at the reader's place, whose data is cut off: its header, and all
/// bytes after it. None if its header is refused or leaves the data length open.
pub(crate) fn partial_segment<'a, A: Allocator>(
    alloc: A,
    reader: &Reader<'a>,
    strict: bool,
) -> Result<Option<Segment<'a, A>>>
    ensures { Gives (λ segment. partial_view segment) result
        (Ok (partial_at strict reader.now.bytes)) }
{
    let mut ahead = reader.duplicate();
    match parse_segment_header(alloc, &mut ahead, strict) {
        Ok(header) => {
            if header.data_length.is_none() {
                return Ok(None);
            }
            let bytes = ahead.tail();
            Ok(Some(Segment { header, bytes }))
        }
        Err(DecodeError::OutOfMemory) => Err(DecodeError::OutOfMemory),
        Err(_) => Ok(None),
    }
}

/// Whether the data of a segment is cut off.
pub fn is_partial<A: Allocator>(segment: &Segment<'_, A>) -> bool
    ensures { result ≡ is_partial (segment_view segment.now) }
{
    match segment.header.data_length {
        Some(length) => segment.bytes.len() < length as usize,
        None => false,
    }
}
