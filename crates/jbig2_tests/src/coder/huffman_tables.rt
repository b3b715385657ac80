//! Tests prefix codes: the standard tables, and a table that is built from lines.
use jbig2_base::error::{DecodeError, HuffmanError, ParseError, Result};
use jbig2_base::reader::Reader;
use jbig2_coder::huffman_table::{HuffmanTable, StandardHuffmanTables, TableLine, standard_lines};
use std::alloc::Global;

const INVALID: DecodeError = DecodeError::Huffman(HuffmanError::InvalidCode);

const END_OF_BYTES: DecodeError = DecodeError::Parse(ParseError::UnexpectedEof);

/// Bytes, and the value of the code that they begin with.
type Code = (&'static [u8], Result<Option<i32>>);

/// Whether the codes have the expected values.
fn codes_hold(table: &HuffmanTable<Global>, codes: &[Code]) -> bool {
    codes.iter().all(|(bytes, expected)| table.decode(&mut Reader::new(bytes)) == *expected)
}

/// Codes of a table of two lines, one with range bits and one without.
const LINES: &[Code] = &[
    (&[0b01100000], Ok(Some(0))),
    (&[0b10000000], Ok(Some(7))),
    (&[0b11000000], Err(INVALID)),
];

fn lines_hold(alloc: Global) -> Result<bool> {
    let lines = [TableLine::new(-3, 1, 2), TableLine::new(7, 2, 0)];
    let table = HuffmanTable::build(alloc, &lines)?;
    Ok(codes_hold(&table, LINES))
}

/// The shortest code of zeros, and range bits of zero.
const ZEROS: &[u8] = &[0; 8];

/// Codes of the standard tables in their order, also one of nine bits (T.88, table B.8) and one that the bytes end in.
const STANDARD: [&[Code]; 15] = [
    &[(ZEROS, Ok(Some(0)))],
    &[(ZEROS, Ok(Some(0))), (&[0xFC], Ok(None))],
    &[(ZEROS, Ok(Some(0)))],
    &[(ZEROS, Ok(Some(1)))],
    &[(ZEROS, Ok(Some(1)))],
    &[(ZEROS, Ok(Some(0)))],
    &[(ZEROS, Ok(Some(-512)))],
    &[
        (ZEROS, Ok(Some(0))),
        (&[0xFE, 0x80], Ok(Some(-3))),
        (&[0xFE, 0x40], Ok(Some(-6))),
        (&[0xFE], Err(END_OF_BYTES)),
    ],
    &[(ZEROS, Ok(None))],
    &[(ZEROS, Ok(Some(-2)))],
    &[(ZEROS, Ok(Some(1)))],
    &[(ZEROS, Ok(Some(1)))],
    &[(ZEROS, Ok(Some(1)))],
    &[(ZEROS, Ok(Some(0)))],
    &[(ZEROS, Ok(Some(0)))],
];

fn standard_tables_hold(alloc: Global) -> Result<bool> {
    let tables = StandardHuffmanTables::new(alloc)?;
    let each = [
        tables.table_a(),
        tables.table_b(),
        tables.table_c(),
        tables.table_d(),
        tables.table_e(),
        tables.table_f(),
        tables.table_g(),
        tables.table_h(),
        tables.table_i(),
        tables.table_j(),
        tables.table_k(),
        tables.table_l(),
        tables.table_m(),
        tables.table_n(),
        tables.table_o(),
    ];
    let hold = each
        .iter()
        .zip(STANDARD)
        .all(|(table, codes)| codes_hold(table, codes));
    Ok(hold && numbers_hold(&tables))
}

/// Checks both: a code that is no number is refused, and one that is a number is read.
fn numbers_hold(tables: &StandardHuffmanTables<Global>) -> bool {
    let out_of_band = tables.table_b().decode_no_oob(&mut Reader::new(&[0xFC]));
    let number = tables.table_n().decode_no_oob(&mut Reader::new(&[0x80]));
    out_of_band == Err(DecodeError::Huffman(HuffmanError::UnexpectedOob)) && number == Ok(-2)
}

/// Whether both hold. The first error is returned.
fn tables_hold(alloc: Global) -> Result<[bool; 2]> {
    Ok([lines_hold(alloc)?, standard_tables_hold(alloc)?])
}

#[test]
fn codes_of_lines_and_of_standard_tables(rt: HostRuntime) {
    let mut holds = tables_hold(rt.alloc());
    if holds == Err(DecodeError::OutOfMemory) {
        holds = tables_hold(rt.alloc());
    }
    assert!(rt; holds == Ok([true, true]));
}

/// Row R5.4, for one table.
fn is_full_and_without_gaps(lines: &[TableLine]) -> bool {
    let mut codes = 0_u32;
    let mut next = None;
    for line in lines {
        if line.prefix_length > 16 || line.range_length > 32 {
            return false;
        }
        codes = codes.wrapping_add(1 << (16 - line.prefix_length));
        if !line.is_lower && !line.is_out_of_band {
            if next.is_some() && next != Some(line.range_low) {
                return false;
            }
            next = Some(line.range_low.wrapping_add(1 << line.range_length));
        }
    }
    codes == 1 << 16
}

#[test]
fn tables_are_full_and_without_gaps(rt: HostRuntime) {
    for index in 0..15 {
        assert!(rt; is_full_and_without_gaps(standard_lines(index)));
    }
}
