//! The cases of the tables of prefix codes.
use crate::answer::refused_as;
use crate::spelling::bytes_of;
use hayro_jbig2::parts::huffman_table::{HuffmanTable, StandardHuffmanTables};
use hayro_jbig2::parts::reader::Reader;
use hayro_jbig2::{DecodeError, Result};
use std::alloc::Allocator;

/// How a table is made.
#[derive(Clone, Copy)]
pub enum Source {
    /// `build` of no lines.
    Nothing,
    /// `build_uniform` of this many codes of this length.
    Uniform(u32, u32),
    /// `read_custom` of these bytes.
    Custom(&'static str),
}

/// One case of tables. The bits of a reader are those of `bytes` after the first `from` bits.
pub enum TableCase {
    /// `decode` with the standard table A.
    StandardA {
        bytes: &'static str,
        from: u8,
        answer: Result<Option<i32>>,
    },
    /// `decode` with a table.
    Decoded {
        source: Source,
        bytes: &'static str,
        from: u8,
        answer: Result<Option<i32>>,
    },
    /// No table is made.
    Refused {
        source: Source,
        error: DecodeError,
    },
    /// `read_custom` of these bytes leaves the reader this many bits before their end.
    Left {
        bytes: &'static str,
        bits: u8,
    },
}

/// Whether a case holds. The only error is `DecodeError::OutOfMemory`.
pub fn table_holds<A: Allocator + Clone>(alloc: &A, case: &TableCase) -> Result<bool> {
    match case {
        TableCase::StandardA {
            bytes,
            from,
            answer,
        } => standard_a_holds(alloc, bytes, *from, answer),
        TableCase::Decoded {
            source,
            bytes,
            from,
            answer,
        } => match make_table(alloc, source) {
            Ok(table) => decode_holds(alloc, &table, bytes, *from, answer),
            Err(error) => refused_as(error, None),
        },
        TableCase::Refused { source, error } => match make_table(alloc, source) {
            Ok(_) => Ok(false),
            Err(refusal) => refused_as(refusal, Some(error)),
        },
        TableCase::Left { bytes, bits } => left_holds(alloc, bytes, *bits),
    }
}

fn standard_a_holds<A: Allocator + Clone>(
    alloc: &A,
    bytes: &str,
    from: u8,
    answer: &Result<Option<i32>>,
) -> Result<bool> {
    let tables = StandardHuffmanTables::new(alloc.clone()?)?;
    decode_holds(alloc, tables.table_a(), bytes, from, answer)
}

fn left_holds<A: Allocator + Clone>(alloc: &A, bytes: &str, bits: u8) -> Result<bool> {
    let Some(bytes) = bytes_of(alloc, bytes)? else {
        return Ok(false);
    };
    let mut reader = Reader::new(&bytes);
    if let Err(error) = HuffmanTable::read_custom(alloc.clone()?, &mut reader) {
        return refused_as(error, None);
    }
    Ok(pass_over(&mut reader, bits) && reader.at_end())
}

fn make_table<A: Allocator + Clone>(alloc: &A, source: &Source) -> Result<HuffmanTable<A>> {
    match source {
        Source::Nothing => HuffmanTable::build(alloc.clone()?, &[]),
        Source::Uniform(count, code_length) => {
            let count = (*count).min(0x8000_0000);
            HuffmanTable::build_uniform(alloc.clone()?, count, (*code_length).min(255))
        }
        Source::Custom(bytes) => {
            let Some(bytes) = bytes_of(alloc, bytes)? else {
                return Err(DecodeError::Unsupported);
            };
            HuffmanTable::read_custom(alloc.clone()?, &mut Reader::new(&bytes))
        }
    }
}

fn decode_holds<A: Allocator + Clone>(
    alloc: &A,
    table: &HuffmanTable<A>,
    bytes: &str,
    from: u8,
    answer: &Result<Option<i32>>,
) -> Result<bool> {
    let Some(bytes) = bytes_of(alloc, bytes)? else {
        return Ok(false);
    };
    let mut reader = Reader::new(&bytes);
    Ok(pass_over(&mut reader, from) && table.decode(&mut reader) == *answer)
}

/// Skips this many bits, at most 32. Returns whether they were there.
fn pass_over(reader: &mut Reader<'_>, count: u8) -> bool {
    count <= 32 && reader.read_bits(count).is_some()
}
