//! The prefix codes of the symbols' ids (T.88, 7.4.3.1.7).
ghost use Rattle.std.specs.Prelude.{◌≡◌, ◌≤◌, ◌^◌, ◌++◌, [], length, replicate, IfOk, Ok, OnOk};
ghost use Rattle.jbig2_base.specs.Results.{Gives};
ghost use Rattle.jbig2_base.specs.Bits.{start_of};
ghost use Rattle.jbig2_coder.specs.PrefixCode.{AreShort, table_of};
ghost use Rattle.jbig2_text.specs.SymbolCodes.{invalid_code, lines_from, short_lengths, with_last_repeated, run_at, next_runcode, runs_at, runcodes_at, symbol_lengths_at, symbol_codes_at, symbol_codes_from};
ghost use Rattle.jbig2_text.specs.Text.{max_symbols};
ghost use Rattle.jbig2_base.specs.Causes.{HasCauseOrNoMemory};
ghost use Rattle.jbig2_text.specs.Causes.{BreaksSymbolCodes};

use jbig2_base::error::{DecodeError, HuffmanError, Result};
use jbig2_base::field::bits_field;
use jbig2_base::reader::Reader;
use jbig2_coder::huffman_table::{HuffmanTable, TableLine};
use std::alloc::Allocator;

/// The number of runcodes.
const RUNCODES: u32 = 35;

fn invalid_code() -> DecodeError
    ensures { result ≡ invalid_code }
{
    DecodeError::Huffman(HuffmanError::InvalidCode)
}

/// The table lines of the numbers from 0 on, with codes of these lengths.
fn code_lines<A: Allocator>(alloc: A, lengths: &[u8]) -> Result<Vec<TableLine, A>>
    requires { length lengths.now ≤ 2 ^ 31 }
    ensures lines { Gives (λ lines. lines.items) result (Ok (lines_from 0 lengths.now)) }
    ensures short { IfOk result (λ lines. AreShort lines.items) }
{
    let mut lines = Vec::new(alloc);
    for (number, length) in lengths.iter().enumerate() {
        lines.push(TableLine::new(number as i32, *length, 0))?;
    }
    Ok(lines)
}

/// The prefix codes of these lengths, for the numbers from 0 on.
fn codes_of<A: Allocator + Clone>(alloc: A, lengths: &[u8]) -> Result<HuffmanTable<A>>
    requires { length lengths.now ≤ 2 ^ 31 }
    ensures { Gives (λ table. table) result (table_of (lines_from 0 lengths.now)) }
{
    let lines = code_lines(alloc.clone()?, lengths)?;
    HuffmanTable::build(alloc, &lines)
}

/// Reads the lengths of the runcodes.
fn read_short_lengths<A: Allocator>(alloc: A, reader: &mut Reader<'_>) -> Result<Vec<u8, A>>
    ensures value { let meant = short_lengths 35 [] reader.old in
        Gives (λ lengths. (lengths.items, reader.new)) result meant }
    ensures count { IfOk result (λ lengths. length lengths.items ≡ 35) }
{
    let mut lengths = Vec::new(alloc);
    for _ in 0..RUNCODES {
        let length = match bits_field(reader, 4, invalid_code()) {
            Ok(length) => length,
            Err(error) => return Err(error),
        };
        lengths.push(length as u8)?;
    }
    Ok(lengths)
}

/// Adds this many times a length.
fn push_lengths<A: Allocator>(lengths: &mut Vec<u8, A>, value: u8, count: u32) -> Result<()>
    requires { length lengths.old.items ≤ max_symbols }
    ensures { let meant = Ok (lengths.old.items ++ replicate count value) in
        Gives (λ _. lengths.new.items) result meant }
{
    let len = lengths.len() + count as usize;
    lengths.resize(len, value)?;
    Ok(())
}

/// Adds this many times the last length.
fn repeat_last<A: Allocator>(lengths: &mut Vec<u8, A>, count: u32) -> Result<()>
    requires { length lengths.old.items ≤ max_symbols }
    ensures { Gives (λ _. lengths.new.items) result (with_last_repeated lengths.old.items count) }
{
    let Some(last) = lengths.last() else {
        return Err(invalid_code());
    };
    let last = *last;
    push_lengths(lengths, last, count)
}

/// Adds the lengths that a runcode means.
fn push_run<A: Allocator>(
    runcode: i32,
    reader: &mut Reader<'_>,
    lengths: &mut Vec<u8, A>,
) -> Result<()>
    requires { length lengths.old.items ≤ max_symbols }
    ensures { let meant = run_at runcode lengths.old.items reader.old in
        Gives (λ _. (lengths.new.items, reader.new)) result meant }
{
    let Ok(code) = u32::try_from(runcode) else {
        return Err(invalid_code());
    };
    if code < 32 {
        lengths.push(code as u8)?;
        return Ok(());
    }
    if code == 32 {
        let more = bits_field(reader, 2, invalid_code())?;
        return repeat_last(lengths, more + 3);
    }
    if code == 33 {
        let more = bits_field(reader, 3, invalid_code())?;
        return push_lengths(lengths, 0, more + 3);
    }
    let more = bits_field(reader, 7, invalid_code())?;
    push_lengths(lengths, 0, more + 11)
}

/// Reads a runcode and adds its lengths.
fn read_run<A: Allocator>(
    runcodes: &HuffmanTable<A>,
    reader: &mut Reader<'_>,
    lengths: &mut Vec<u8, A>,
) -> Result<()>
    requires { length lengths.old.items ≤ max_symbols }
    ensures { let meant = next_runcode runcodes.now lengths.old.items reader.old in
        Gives (λ _. (lengths.new.items, reader.new)) result meant }
{
    let runcode = runcodes.decode_no_oob(reader)?;
    push_run(runcode, reader, lengths)
}

/// Reads the codes of the runcodes.
#[tactic(auto, unfolding(crate::specs::SymbolCodes::runcodes_at))]
fn read_runcodes<A: Allocator + Clone>(alloc: A, reader: &mut Reader<'_>) -> Result<HuffmanTable<A>>
    ensures { Gives (λ table. (table, reader.new)) result (runcodes_at reader.old) }
{
    let lengths = read_short_lengths(alloc.clone()?, reader)?;
    codes_of(alloc, &lengths)
}

/// Reads the lengths of this many symbols' codes. A run that goes past them gives more.
fn read_lengths<A: Allocator>(
    alloc: A,
    count: u32,
    runcodes: &HuffmanTable<A>,
    reader: &mut Reader<'_>,
) -> Result<Vec<u8, A>>
    requires { count ≤ max_symbols }
    ensures { let meant = runs_at count count runcodes.now [] reader.old in
        Gives (λ lens. (lens.items, reader.new)) result meant }
{
    let mut lengths = Vec::new(alloc);
    // Each run has at least one length.
    for _ in 0..count {
        if lengths.len() >= count as usize {
            return Ok(lengths);
        }
        match read_run(runcodes, reader, &mut lengths) {
            Ok(()) => {}
            Err(error) => return Err(error),
        }
    }
    Ok(lengths)
}

/// Reads the lengths of exactly this many symbols' codes.
#[tactic(auto, unfolding(crate::specs::SymbolCodes::symbol_lengths_at))]
fn read_symbol_lengths<A: Allocator>(
    alloc: A,
    count: u32,
    runcodes: &HuffmanTable<A>,
    reader: &mut Reader<'_>,
) -> Result<Vec<u8, A>>
    requires { count ≤ max_symbols }
    ensures value { let meant = symbol_lengths_at count runcodes.now reader.old in
        Gives (λ lens. (lens.items, reader.new)) result meant }
    ensures few { IfOk result (λ lens. length lens.items ≤ count) }
{
    let lengths = read_lengths(alloc, count, runcodes, reader)?;
    if lengths.len() > count as usize {
        return Err(invalid_code());
    }
    Ok(lengths)
}

/// Reads the codes of this many symbols.
#[tactic(auto, unfolding(crate::specs::SymbolCodes::symbol_codes_from))]
fn read_symbol_codes<A: Allocator + Clone>(
    alloc: A,
    reader: &mut Reader<'_>,
    count: u32,
) -> Result<HuffmanTable<A>>
    requires { count ≤ max_symbols }
    ensures value { let meant = symbol_codes_from count reader.old in
        Gives (λ table. (table, reader.new)) result meant }
{
    let runcodes = read_runcodes(alloc.clone()?, reader)?;
    let lengths = read_symbol_lengths(alloc.clone()?, count, &runcodes, reader)?;
    let codes = codes_of(alloc, &lengths)?;
    reader.align();
    Ok(codes)
}

/// Reads the codes of this many symbols, at most 2^21. It begins with the current byte, whole, and
/// the reader is then at the beginning of a byte.
///
/// Returns `ParseError::UnexpectedEof` where the bits end in a runcode; `HuffmanError::InvalidCode`
/// where they end elsewhere, for codes that do not fit, where no length comes before a repeated
/// one, and for more lengths than symbols; `OutOfMemory`.
pub fn parse_symbol_codes<A: Allocator + Clone>(
    alloc: A,
    reader: &mut Reader<'_>,
    count: u32,
) -> Result<HuffmanTable<A>>
    requires few { count ≤ max_symbols }
    ensures value { let meant = symbol_codes_at count reader.old.bytes in
        Gives (λ table. (table, reader.new.bytes)) result meant }
    ensures place { OnOk result (reader.new ≡ start_of reader.new.bytes) }
    ensures causes { HasCauseOrNoMemory result
        (BreaksSymbolCodes count (start_of reader.old.bytes)) }
{
    *reader = Reader::new(reader.tail());
    let codes = read_symbol_codes(alloc, reader, count)?;
    *reader = Reader::new(reader.tail());
    Ok(codes)
}
