//! Builds tables of prefix codes, and reads values by them (T.88, Annex B).
ghost use Rattle.std.specs.Prelude.{◌≡◌, ◌≤◌, ◌^◌, drop, IfOk, Ok};
ghost use Rattle.jbig2_base.specs.Results.{Gives, Returns};
ghost use Rattle.jbig2_base.specs.Bits.{bits_left};
ghost use Rattle.jbig2_coder.specs.PrefixCode.{table_of, read_code, decoded_value, value_at, without_oob, AreShort, IsFree, Reads};
ghost use Rattle.jbig2_coder.specs.Tables.{uniform};
ghost use Rattle.jbig2_coder.specs.CustomTable.{custom_table, GivesAt, TablesAreFree};
ghost use Rattle.jbig2_coder.specs.Causes.{BreaksCode, BreaksCustom, BreaksNumber, BreaksTable};
ghost use Rattle.jbig2_base.specs.Causes.{HasCause, HasCauseOrNoMemory};

mod custom;
mod first_table;
mod levels;
mod line;
mod standard;

use custom::read_lines;
use first_table::FirstTable;
use jbig2_base::error::{HuffmanError, Result};
use jbig2_base::reader::Reader;
use levels::{Level, longest, push_level};
pub use line::TableLine;
pub use standard::{StandardHuffmanTables, standard_lines};
use std::alloc::Allocator;
use std::marker::Model;

/// How many roots the tree of a code has.
const ROOTS: usize = 1;

/// A table of prefix codes, with the codes and their lines.
pub struct HuffmanTable<A: Allocator> {
    lines: Vec<TableLine, A>,
    levels: Vec<Level, A>,
    first: FirstTable,
}

impl<A: Allocator> Drop for HuffmanTable<A> {
    fn drop(self) {
        let HuffmanTable {
            lines: _,
            levels: _,
            first: _,
        } = self;
    }
}

impl<A: Allocator> Model for HuffmanTable<A> {
    ghost use Rattle.std.specs.Prelude.{List};
    ghost use Rattle.jbig2_coder.specs.PrefixCode.{Member, AreShort};
    ghost use Rattle.jbig2_coder.specs.inner.PrefixLevels.{groups_of, codes_at, AreLevels};
    ghost use Rattle.jbig2_coder.specs.inner.FirstCodes.{AreFirst};

    ghost Value = { List Member };

    ghost view = { λ t. codes_at 0 0 (groups_of t.lines.items t.levels.items) };

    ghost invariant = { λ t. AreLevels t.lines.items t.levels.items × AreShort t.lines.items ×
        AreFirst t.lines.items t.levels.items t.first };
}

impl<A: Allocator + Clone> HuffmanTable<A> {
    /// The table of a list of lines with range lengths of at most 32 (B.3).
    ///
    /// It is refused as an invalid code exactly if the codes do not fit, that is if the sum of 2^-length
    /// over the lengths above 0 exceeds 1. No code of a table begins another, however the table is made.
    pub fn build(alloc: A, lines: &[TableLine]) -> Result<HuffmanTable<A>>
        requires { AreShort lines.now }
        ensures table { Gives (λ t. t) result (table_of lines.now) }
        ensures free { IfOk result IsFree }
        ensures law { TablesAreFree }
        ensures causes { HasCauseOrNoMemory result (BreaksTable lines.now) }
    {
        let depths = longest(lines);
        let mut by_length = Vec::with_capacity(alloc.clone()?, lines.len())?;
        let mut levels = Vec::with_capacity(alloc, usize::from(depths))?;
        let mut nodes = 0;
        for depth in (0..depths).rev() {
            let first = by_length.len();
            push_level(lines, depth + 1, &mut by_length)?;
            let count = by_length.len() - first;
            levels.push(Level {
                first,
                count,
                nodes,
            })?;
            nodes = (count + nodes).div_ceil(2);
        }
        if nodes > ROOTS {
            return Err(HuffmanError::InvalidCode.into());
        }
        levels.reverse();
        let first = FirstTable::new(&by_length, &levels);
        Ok(HuffmanTable {
            lines: by_length,
            levels,
            first,
        })
    }

    /// Reads the table of a tables segment (B.2): flags, the least and the greatest value, and the
    /// lengths of the lines.
    ///
    /// Returns `ParseError::UnexpectedEof` if the bits end before the lines. Returns
    /// `HuffmanError::InvalidCode` if they end later, if a range leaves signed 32 bits, or if the
    /// codes do not fit.
    #[tactic(auto, unfolding(jbig2_base::specs::Causes::HasCauseOrNoMemory))]
    pub fn read_custom(alloc: A, reader: &mut Reader<'_>) -> Result<HuffmanTable<A>>
        ensures table { GivesAt (λ t. t) result reader.new (custom_table reader.old) }
        ensures causes { HasCauseOrNoMemory result (BreaksCustom reader.old) }
    {
        let lines = read_lines(alloc.clone()?, reader)?;
        HuffmanTable::build(alloc, &lines)
    }

    /// The table that gives the numbers 0 to `count` - 1, at most 2^31, codes of one length.
    pub fn build_uniform(alloc: A, count: u32, code_length: u32) -> Result<HuffmanTable<A>>
        requires count { count ≤ 2 ^ 31 }
        requires length { code_length ≤ 255 }
        ensures { Gives (λ t. t) result (table_of (uniform count code_length)) }
    {
        let mut lines = Vec::new(alloc.clone()?);
        for number in 0..count {
            lines.push(TableLine::new(number as i32, code_length as u8, 0))?;
        }
        HuffmanTable::build(alloc, &lines)
    }
}

impl<A: Allocator> HuffmanTable<A> {
    /// Reads a code and gives its line. Returns `ParseError::UnexpectedEof` if the bits end within
    /// the code, or `HuffmanError::InvalidCode` after the first bits that begin no code.
    #[tactic(auto, using(crate::proofs::Causes::code_cause))]
    fn read_line(&self, reader: &mut Reader<'_>) -> Result<TableLine>
        ensures reads { Reads reader.old reader.new result
            (read_code self.now (bits_left reader.old)) }
        ensures short { IfOk result (λ line. line.range_length ≤ 32) }
        ensures causes { HasCause result (BreaksCode self.now (bits_left reader.old)) }
    {
        self.first.read_line(&self.lines, &self.levels, reader)
    }

    /// Reads a code and its range bits (B.4). Gives the value, or None for out of band.
    ///
    /// Returns `ParseError::UnexpectedEof` if the bits end within the code. Returns
    /// `HuffmanError::InvalidCode` after the first bits that begin no code, if the range bits end
    /// too early, or if the value is outside signed 32 bits.
    pub fn decode(&self, reader: &mut Reader<'_>) -> Result<Option<i32>>
        ensures { Reads reader.old reader.new result
            (decoded_value self.now (bits_left reader.old)) }
    {
        let line = self.read_line(reader)?;
        if line.is_out_of_band {
            return Ok(None);
        }
        line.read_value(reader)
    }

    /// Reads a value. Out of band is an error (`HuffmanError::UnexpectedOob`).
    #[tactic(auto, using(crate::proofs::Causes::number_cause))]
    pub fn decode_no_oob(&self, reader: &mut Reader<'_>) -> Result<i32>
        ensures reads { Reads reader.old reader.new result
            (without_oob (decoded_value self.now (bits_left reader.old))) }
        ensures number { let meant = value_at self.now reader.old in
            Returns (λ n. (n, reader.new)) result meant }
        ensures causes { HasCause result (BreaksNumber self.now (bits_left reader.old)) }
    {
        let Some(value) = self.decode(reader)? else {
            return Err(HuffmanError::UnexpectedOob.into());
        };
        Ok(value)
    }
}
