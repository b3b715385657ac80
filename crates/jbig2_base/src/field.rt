//! Reads fields at a reader's place, and returns an error if the bytes end too early (T.88, 7.1).
ghost use Rattle.std.specs.Prelude.{◌≡◌, ◌+◌, ◌^◌, ◌<◌, ◌≤◌, drop, length, IfOk, OnOk};
ghost use Rattle.std.specs.Int.{w8, w16, w32};
ghost use Rattle.jbig2_base.specs.Results.{Returns, some_or};
ghost use Rattle.jbig2_base.specs.Bits.{bits_left, bits_next, bits_on, bytes_on};
ghost use Rattle.jbig2_base.specs.Fields.{Parses, bits_at, bytes_at, number_at, signed_at};

use crate::error::{DecodeError, ParseError, Result};
use crate::reader::Reader;

/// The next byte, or `ParseError::UnexpectedEof`.
pub fn byte_field(reader: &mut Reader<'_>) -> Result<u8>
    ensures parses { Parses reader.old reader.new result (λ x. x) (number_at w8 reader.old.bytes) }
    ensures place { reader.new ≡ bytes_on 1 reader.old }
    ensures taken { OnOk result (length reader.new.bytes + 1 ≡ length reader.old.bytes) }
{
    reader
        .read_byte()
        .ok_or(DecodeError::Parse(ParseError::UnexpectedEof))
}

/// The next two bytes as a number, or `ParseError::UnexpectedEof`.
pub fn u16_field(reader: &mut Reader<'_>) -> Result<u16>
    ensures parses { Parses reader.old reader.new result (λ x. x) (number_at w16 reader.old.bytes) }
    ensures place { reader.new ≡ bytes_on 2 reader.old }
    ensures taken { OnOk result (length reader.new.bytes + 2 ≡ length reader.old.bytes) }
{
    reader
        .read_u16()
        .ok_or(DecodeError::Parse(ParseError::UnexpectedEof))
}

/// The next four bytes as a number, or `ParseError::UnexpectedEof`.
pub fn u32_field(reader: &mut Reader<'_>) -> Result<u32>
    ensures parses { Parses reader.old reader.new result (λ x. x) (number_at w32 reader.old.bytes) }
    ensures place { reader.new ≡ bytes_on 4 reader.old }
    ensures taken { OnOk result (length reader.new.bytes + 4 ≡ length reader.old.bytes) }
{
    reader
        .read_u32()
        .ok_or(DecodeError::Parse(ParseError::UnexpectedEof))
}

/// The next byte as a signed number, or `ParseError::UnexpectedEof`.
pub fn i8_field(reader: &mut Reader<'_>) -> Result<i8>
    ensures parses { Parses reader.old reader.new result (λ x. x) (signed_at w8 reader.old.bytes) }
    ensures place { reader.new ≡ bytes_on 1 reader.old }
    ensures taken { OnOk result (length reader.new.bytes + 1 ≡ length reader.old.bytes) }
{
    let number = byte_field(reader)?;
    Ok(number.cast_signed())
}

/// The next four bytes as a signed number, or `ParseError::UnexpectedEof`.
pub fn i32_field(reader: &mut Reader<'_>) -> Result<i32>
    ensures parses { Parses reader.old reader.new result (λ x. x) (signed_at w32 reader.old.bytes) }
    ensures place { reader.new ≡ bytes_on 4 reader.old }
    ensures taken { OnOk result (length reader.new.bytes + 4 ≡ length reader.old.bytes) }
{
    let number = u32_field(reader)?;
    Ok(number.cast_signed())
}

/// The next `count` bytes, or `ParseError::UnexpectedEof`.
pub fn bytes_field<'a>(reader: &mut Reader<'a>, count: usize) -> Result<&'a [u8]>
    ensures parses { Parses reader.old reader.new result (λ x. x.now)
        (bytes_at count reader.old.bytes) }
    ensures place { reader.new ≡ bytes_on count reader.old }
    ensures taken { OnOk result (length reader.new.bytes + count ≡ length reader.old.bytes) }
{
    reader
        .read_bytes(count)
        .ok_or(DecodeError::Parse(ParseError::UnexpectedEof))
}

/// The next `count` bits as a number, high bit first, or `error`.
pub fn bits_field(reader: &mut Reader<'_>, count: u8, error: DecodeError) -> Result<u32>
    requires { count ≤ 32 }
    ensures value { Returns (λ n. (n, reader.new)) result (bits_at error count reader.old) }
    ensures number { result ≡ some_or error (bits_next count (bits_left reader.old)) }
    ensures place { reader.new ≡ bits_on count reader.old }
    ensures rest { bits_left reader.new ≡ drop count (bits_left reader.old) }
    ensures small { IfOk result (λ n. n < 2 ^ count) }
    ensures enough { OnOk result (count ≤ length (bits_left reader.old)) }
{
    match reader.read_bits(count) {
        Some(number) => Ok(number),
        None => Err(error),
    }
}
