//! Tests bitmaps, errors, and each public call of readers, fields and operators.
mod bitmaps;
mod errors;

use jbig2_base::bitmap::operator::CombinationOperator;
use jbig2_base::error::{DecodeError, HuffmanError, ParseError};
use jbig2_base::field::{
    bits_field, byte_field, bytes_field, i8_field, i32_field, u16_field, u32_field,
};
use jbig2_base::reader::Reader;

#[test]
fn bits_and_bytes_are_read(rt: HostRuntime) {
    let bytes = [0xA0, 1, 0, 2, 0, 0, 0, 3, 0xFF, 0xFF, 0xFF, 0xFE, 4, 5, 6];
    let mut reader = Reader::new(&bytes);
    let bits = (reader.read_bit(), reader.read_bits(2), reader.peek_bits(13));
    assert!(rt; bits == (Some(1), Some(0b01), Some(1)));
    reader.advance(1);
    reader.align();
    let first = (reader.read_nonzero_byte(), reader.read_u16());
    let numbers = (reader.read_u32(), reader.read_i32(), reader.read_byte());
    assert!(rt; first == (Some(1), Some(2)) && numbers == (Some(3), Some(-2), Some(4)));
    assert!(rt; reader.peek_bytes(2) == Some(&[5, 6]));
    assert!(rt; reader.read_bytes(1) == Some(&[5]));
    assert!(rt; reader.duplicate().read_byte() == Some(6) && reader.tail() == [6].as_slice());
    let end = (reader.at_end(), reader.read_bits(8), reader.at_end());
    assert!(rt; end == (false, Some(6), true) && reader.peek_bits(1).is_none());
}

#[test]
fn fields_are_read(rt: HostRuntime) {
    let mut reader = Reader::new(&[1, 0, 2, 0, 0, 0, 3, 4, 5]);
    assert!(rt; byte_field(&mut reader) == Ok(1));
    assert!(rt; u16_field(&mut reader) == Ok(2));
    assert!(rt; u32_field(&mut reader) == Ok(3));
    assert!(rt; bytes_field(&mut reader, 2) == Ok(&[4, 5]));
    let end_of_bytes = DecodeError::Parse(ParseError::UnexpectedEof);
    assert!(rt; byte_field(&mut reader).err() == Some(end_of_bytes));
}

#[test]
fn signed_fields_and_bits_are_read(rt: HostRuntime) {
    let mut reader = Reader::new(&[0xFF, 0xFF, 0xFF, 0xFF, 0xFE, 0b1010_0000]);
    assert!(rt; i8_field(&mut reader) == Ok(-1));
    assert!(rt; i32_field(&mut reader) == Ok(-2));
    let invalid = DecodeError::Huffman(HuffmanError::InvalidCode);
    assert!(rt; bits_field(&mut reader, 3, invalid.duplicate()) == Ok(0b101));
    assert!(rt; bits_field(&mut reader, 6, invalid.duplicate()).err() == Some(invalid));
}

#[test]
fn operators_have_numbers(rt: HostRuntime) {
    assert!(rt; CombinationOperator::from_value(3) == Ok(CombinationOperator::Xnor));
    assert!(rt; CombinationOperator::default() == CombinationOperator::Or);
}
