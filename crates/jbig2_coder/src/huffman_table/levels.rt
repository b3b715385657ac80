//! The levels of a table: the lines of each prefix length, and the inner nodes of the code's tree.
ghost use Rattle.std.specs.Prelude.{◌≡◌, ◌++◌, OnOk, IfErr, IfOk, ◌≤◌, length};
ghost use Rattle.jbig2_base.specs.declared.error.DecodeError.TheVariants.{OutOfMemory};
ghost use Rattle.jbig2_base.specs.Bits.{bits_left};
ghost use Rattle.jbig2_coder.specs.PrefixCode.{longest, level, AreShort, Reads};
ghost use Rattle.jbig2_coder.specs.inner.PrefixLevels.{walk_of, AreLevels};

use super::line::TableLine;
use jbig2_base::error::{HuffmanError, ParseError, Result};
use jbig2_base::reader::Reader;
use std::alloc::Allocator;

/// The lines of one prefix length, within the lines sorted by length, and how many beginnings of
/// longer codes have that length.
#[derive(Debug, Clone, Copy)]
pub(super) struct Level {
    /// The place of its first line.
    pub(super) first: usize,
    /// How many lines it has.
    pub(super) count: usize,
    /// How many beginnings of longer codes have this length.
    pub(super) nodes: usize,
}

/// The greatest prefix length; 0 if there are no lines.
pub(super) fn longest(lines: &[TableLine]) -> u8
    ensures { result ≡ longest lines.now }
{
    let mut longest = 0;
    for line in lines {
        longest = longest.max(line.prefix_length);
    }
    longest
}

/// Adds the lines with this prefix length at the end of `by_length`.
pub(super) fn push_level<A: Allocator>(
    lines: &[TableLine],
    length: u8,
    by_length: &mut Vec<TableLine, A>,
) -> Result<()>
    ensures items { OnOk result (by_length.new.items
        ≡ by_length.old.items ++ level length lines.now) }
    ensures memory { IfErr result (λ e. e ≡ OutOfMemory) }
{
    for line in lines {
        if line.prefix_length == length {
            by_length.push(*line)?;
        }
    }
    Ok(())
}

/// Reads a code, bit by bit from a node down the levels, and gives its line. Returns
/// `ParseError::UnexpectedEof` if the bits end within the code, or `HuffmanError::InvalidCode`
/// after the first bits that begin no code.
pub(super) fn read_line(
    lines: &[TableLine],
    levels: &[Level],
    node: usize,
    reader: &mut Reader<'_>,
) -> Result<TableLine>
    requires levels { AreLevels lines.now levels.now }
    requires node { node ≤ length lines.now }
    requires short { AreShort lines.now }
    ensures reads { Reads reader.old reader.new result
        (walk_of lines.now levels.now node (bits_left reader.old)) }
    ensures short { IfOk result (λ line. line.range_length ≤ 32) }
{
    let mut node = node;
    for level in levels {
        let Some(bit) = reader.read_bit() else {
            return Err(ParseError::UnexpectedEof.into());
        };
        let child = 2 * node + usize::from(bit);
        if child < level.count {
            return Ok(lines[level.first + child]);
        }
        node = child - level.count;
        if node >= level.nodes {
            return Err(HuffmanError::InvalidCode.into());
        }
    }
    match reader.read_bit() {
        Some(_) => Err(HuffmanError::InvalidCode.into()),
        None => Err(ParseError::UnexpectedEof.into()),
    }
}
