//! The first table of a code: it gives the code that begins the next eight bits.
ghost use Rattle.std.specs.Prelude.{◌≡◌, ◌+◌, ◌≤◌, ◌<◌, ◌^◌, IfOk};
ghost use Rattle.jbig2_base.specs.Bits.{bits_left};
ghost use Rattle.jbig2_coder.specs.PrefixCode.{AreShort, Reads};
ghost use Rattle.jbig2_coder.specs.inner.PrefixLevels.{walk_of, groups_of, nodes, AreLevels};
ghost use Rattle.jbig2_coder.specs.inner.FirstCodes.{AreFirst, Enters};

use super::levels::{Level, read_line};
use super::line::TableLine;
use jbig2_base::error::Result;
use jbig2_base::reader::Reader;

/// The code that begins a byte.
#[derive(Debug, Clone, Copy)]
pub(super) struct FirstCode {
    /// The place of its line.
    pub(super) line: u16,
    /// How many bits it has; 0 if no code of at most eight bits begins the byte.
    pub(super) length: u8,
}

/// The codes that begin each byte.
#[derive(Debug, Clone, Copy)]
pub(super) struct FirstTable {
    /// The code of at most eight bits, for each byte.
    codes: [FirstCode; 256],
    /// The first byte after all codes of at most eight bits. It and later ones begin longer codes.
    longer: usize,
}

/// Enters the codes of a level, which have `length` bits and are numbered from `code` on.
fn enter_level(codes: &mut [FirstCode; 256], level: &Level, length: u8, code: usize)
    requires length { (1 ≤ length) × (length ≤ 8) }
    requires room { code + level.now.count ≤ 2 ^ length }
    requires lines { level.now.first + level.now.count < 2 ^ 64 }
    ensures { Enters codes.old codes.new level.now length code }
{
    if level.first + level.count > 65536 {
        // The places do not fit: these codes are read by the levels.
        return;
    }
    let shift = 8 - length;
    for byte in code << shift..(code + level.count) << shift {
        let line = level.first + ((byte >> shift) - code);
        codes[byte] = FirstCode {
            line: line as u16,
            length,
        };
    }
}

impl FirstTable {
    /// The first table of a code.
    pub(super) fn new(lines: &[TableLine], levels: &[Level]) -> FirstTable
        requires levels { AreLevels lines.now levels.now }
        requires room { nodes (groups_of lines.now levels.now) ≤ 1 }
        ensures { AreFirst lines.now levels.now result }
    {
        let mut codes = [FirstCode { line: 0, length: 0 }; 256];
        let mut code = 0;
        for depth in 0..levels.len().min(8) {
            let level = &levels[depth];
            enter_level(&mut codes, level, depth as u8 + 1, 2 * code);
            code = 2 * code + level.count;
        }
        FirstTable {
            codes,
            longer: code,
        }
    }

    /// Reads a code by its first eight bits, and goes on by the levels if it is longer. If fewer
    /// bits are left, or they begin no code, only the levels read it.
    pub(super) fn read_line(
        &self,
        lines: &[TableLine],
        levels: &[Level],
        reader: &mut Reader<'_>,
    ) -> Result<TableLine>
        requires levels { AreLevels lines.now levels.now }
        requires short { AreShort lines.now }
        requires first { AreFirst lines.now levels.now self.now }
        ensures reads { Reads reader.old reader.new result
            (walk_of lines.now levels.now 0 (bits_left reader.old)) }
        ensures short { IfOk result (λ line. line.range_length ≤ 32) }
    {
        let Some(byte) = reader.peek_bits(8) else {
            return read_line(lines, levels, 0, reader);
        };
        let byte = byte as usize;
        let code = self.codes[byte];
        if code.length > 0 {
            reader.advance(code.length);
            return Ok(lines[usize::from(code.line)]);
        }
        if levels.len() > 8 && byte >= self.longer && byte - self.longer < levels[7].nodes {
            reader.advance(8);
            return read_line(lines, &levels[8..], byte - self.longer, reader);
        }
        read_line(lines, levels, 0, reader)
    }
}
