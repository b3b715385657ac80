//! Reads the lines of a custom table (T.88, B.2).
ghost use Rattle.std.specs.Prelude.{◌≡◌, ◌+◌, ◌≤◌, ◌<◌, ◌^◌, drop, length, OnOk, IfOk};
ghost use Rattle.jbig2_base.specs.Bits.{bits_left, bits_on};
ghost use Rattle.jbig2_coder.specs.CustomTable.{left_at, next_low, custom_header, custom_line, range_lines, end_lines, concat, custom_lines, GivesAt};
ghost use Rattle.jbig2_coder.specs.inner.CodeReadings.{HasWidths};
ghost use Rattle.jbig2_coder.specs.PrefixCode.{AreShort};

use super::line::TableLine;
use jbig2_base::error::{DecodeError, HuffmanError, ParseError, Result};
use jbig2_base::field::bits_field;
use jbig2_base::reader::Reader;
use std::alloc::Allocator;

/// The fields before the lines.
#[derive(Clone, Copy)]
pub(super) struct Header {
    /// Whether there is an out-of-band line.
    pub(super) has_out_of_band: bool,
    /// How many bits a prefix length has, 1 to 8.
    pub(super) prefix_bits: u8,
    /// How many bits a range length has, 1 to 8.
    pub(super) range_bits: u8,
    /// The lowest value of the lines that are neither lower nor upper.
    pub(super) minimum: i32,
    /// One more than the greatest value of these lines.
    pub(super) maximum: i32,
}

/// Reads the fields before the lines.
fn read_header(reader: &mut Reader<'_>) -> Result<Header>
    ensures header { left_at reader.new result ≡ custom_header reader.old }
    ensures widths { IfOk result HasWidths }
{
    let flags = bits_field(reader, 8, DecodeError::Parse(ParseError::UnexpectedEof))?;
    let minimum = bits_field(reader, 32, DecodeError::Parse(ParseError::UnexpectedEof))?;
    let maximum = bits_field(reader, 32, DecodeError::Parse(ParseError::UnexpectedEof))?;
    Ok(Header {
        has_out_of_band: flags % 2 == 1,
        prefix_bits: (flags / 2 % 8) as u8 + 1,
        range_bits: (flags / 16 % 8) as u8 + 1,
        minimum: minimum.cast_signed(),
        maximum: maximum.cast_signed(),
    })
}

/// Reads a line that begins at `low`, and gives the next line's low value.
fn read_range_line(reader: &mut Reader<'_>, header: &Header, low: i32) -> Result<(TableLine, i32)>
    requires { HasWidths header.now }
    ensures line { left_at reader.new result ≡ custom_line header.now low reader.old }
    ensures shorter { OnOk result (length (bits_left reader.new) < length (bits_left reader.old)) }
    ensures short { IfOk result (λ x. x.0.range_length ≤ 32) }
{
    let prefix_length = bits_field(
        reader,
        header.prefix_bits,
        DecodeError::Huffman(HuffmanError::InvalidCode),
    )?;
    let range_length = bits_field(
        reader,
        header.range_bits,
        DecodeError::Huffman(HuffmanError::InvalidCode),
    )?;
    let next = next_low(low, range_length)?;
    let line = TableLine::new(low, prefix_length as u8, range_length as u8);
    Ok((line, next))
}

/// The low value after a range, or an invalid code if the range goes past signed 32 bits.
fn next_low(low: i32, range_length: u32) -> Result<i32>
    ensures value { result ≡ next_low low range_length }
    ensures short { IfOk result (λ _. range_length ≤ 31) }
{
    if range_length >= 32 {
        return Err(HuffmanError::InvalidCode.into());
    }
    let range = 1_u32 << range_length;
    match i32::try_from(i64::from(low) + i64::from(range)) {
        Ok(next) => Ok(next),
        Err(_) => Err(HuffmanError::InvalidCode.into()),
    }
}

/// Reads the lines from the minimum up to the maximum.
fn read_range_lines<A: Allocator>(
    alloc: A,
    reader: &mut Reader<'_>,
    header: &Header,
) -> Result<Vec<TableLine, A>>
    requires { HasWidths header.now }
    ensures lines { GivesAt (λ v. v.items) result reader.new (range_lines header.now reader.old) }
    ensures short { IfOk result (λ v. AreShort v.items) }
{
    let mut lines = Vec::new(alloc);
    let mut low = header.minimum;
    while low < header.maximum {
        let (line, next) = read_range_line(reader, header, low)?;
        lines.push(line)?;
        low = next;
    }
    Ok(lines)
}

/// Reads the lower line, the upper line and any out-of-band line, and adds them to `lines`.
fn push_end_lines<A: Allocator>(
    reader: &mut Reader<'_>,
    header: &Header,
    lines: &mut Vec<TableLine, A>,
) -> Result<()>
    requires widths { HasWidths header.now }
    requires short { AreShort lines.old.items }
    ensures lines { GivesAt (λ _. lines.new.items) result reader.new
        (concat lines.old.items (end_lines header.now reader.old)) }
    ensures short { OnOk result (AreShort lines.new.items) }
{
    let lower = bits_field(
        reader,
        header.prefix_bits,
        DecodeError::Huffman(HuffmanError::InvalidCode),
    )?;
    let upper = bits_field(
        reader,
        header.prefix_bits,
        DecodeError::Huffman(HuffmanError::InvalidCode),
    )?;
    lines.push(TableLine::lower(header.minimum, lower as u8))?;
    lines.push(TableLine::new(header.maximum, upper as u8, 32))?;
    if header.has_out_of_band {
        let out_of_band = bits_field(
            reader,
            header.prefix_bits,
            DecodeError::Huffman(HuffmanError::InvalidCode),
        )?;
        lines.push(TableLine::out_of_band(out_of_band as u8))?;
    }
    Ok(())
}

/// Reads all lines of a custom table.
pub(super) fn read_lines<A: Allocator>(
    alloc: A,
    reader: &mut Reader<'_>,
) -> Result<Vec<TableLine, A>>
    ensures lines { GivesAt (λ v. v.items) result reader.new (custom_lines reader.old) }
    ensures short { IfOk result (λ v. AreShort v.items) }
{
    let header = read_header(reader)?;
    let mut lines = read_range_lines(alloc, reader, &header)?;
    push_end_lines(reader, &header, &mut lines)?;
    Ok(lines)
}
