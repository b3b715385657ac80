//! The lines of a table of prefix codes (T.88, B.2 and B.4).
ghost use Rattle.std.specs.Prelude.{◌≡◌, ◌≤◌, drop};
ghost use Rattle.std.specs.Option.{SomeIff};
ghost use Rattle.std.specs.Int.{w64};
ghost use Rattle.std.specs.Prelude.{FitsSigned};
ghost use Rattle.jbig2_base.specs.Bits.{bits_left, bits_on, bits_next};

use jbig2_base::error::{HuffmanError, Result};
use jbig2_base::reader::Reader;

/// A line of a table: the length of its prefix code, and the values after that code.
///
/// A line with a prefix length of 0 has no code.
#[derive(Debug, Clone, Copy)]
pub struct TableLine {
    /// The value if the range bits are zero; in a lower line values go down from it.
    pub range_low: i64,
    /// How many bits the code has.
    pub prefix_length: u8,
    /// How many range bits follow the code.
    pub range_length: u8,
    /// Whether the range bits are subtracted.
    pub is_lower: bool,
    /// Whether the line means out of band.
    pub is_out_of_band: bool,
}

impl TableLine {
    ghost use Rattle.std.specs.Prelude.{◌≡◌, ◌≤◌, drop, pos, ◌-ℤ◌};
    ghost use Rattle.jbig2_coder.specs.PrefixCode.{in_word, value_of_line, value_by};
    ghost use Rattle.jbig2_base.specs.Causes.{HasCause};
    ghost use Rattle.jbig2_coder.specs.Causes.{BreaksRange};
    ghost use Rattle.jbig2_coder.specs.Tables.{line, lower, out_of_band};

    /// A line whose values go up from `range_low`.
    pub fn new(range_low: i32, prefix_length: u8, range_length: u8) -> TableLine
        ensures { result ≡ line prefix_length range_length range_low }
    {
        TableLine {
            range_low: i64::from(range_low),
            prefix_length,
            range_length,
            is_lower: false,
            is_out_of_band: false,
        }
    }

    /// The lower range table line: its values go down from one less than the minimum.
    pub(super) fn lower(minimum: i32, prefix_length: u8) -> TableLine
        ensures { result ≡ lower prefix_length (minimum -ℤ pos 1) }
    {
        TableLine {
            range_low: i64::from(minimum) - 1,
            prefix_length,
            range_length: 32,
            is_lower: true,
            is_out_of_band: false,
        }
    }

    /// The out-of-band line.
    pub(super) fn out_of_band(prefix_length: u8) -> TableLine
        ensures { result ≡ out_of_band prefix_length }
    {
        TableLine {
            range_low: 0,
            prefix_length,
            range_length: 0,
            is_lower: false,
            is_out_of_band: true,
        }
    }

    /// The low value plus the range bits, or minus them in a lower line, if it fits 64 bits.
    fn value_at(&self, offset: u32) -> Option<i64>
        ensures { SomeIff result (FitsSigned w64 (value_of_line self.now offset))
            (value_of_line self.now offset) }
    {
        if self.is_lower {
            self.range_low.checked_sub(i64::from(offset))
        } else {
            self.range_low.checked_add(i64::from(offset))
        }
    }

    /// The value for these range bits. Outside signed 32 bits it is an invalid code.
    fn value(&self, offset: u32) -> Result<i32>
        ensures { result ≡ in_word (value_of_line self.now offset) }
    {
        let Some(value) = self.value_at(offset) else {
            return Err(HuffmanError::InvalidCode.into());
        };
        match i32::try_from(value) {
            Ok(value) => Ok(value),
            Err(_) => Err(HuffmanError::InvalidCode.into()),
        }
    }

    /// Reads the range bits after the code. Gives the value, or an invalid code if the bits end too
    /// early or the value is outside signed 32 bits.
    #[tactic(auto, using(crate::proofs::Causes::range_cause))]
    pub(super) fn read_value(&self, reader: &mut Reader<'_>) -> Result<Option<i32>>
        requires { self.now.range_length ≤ 32 }
        ensures value { result ≡ value_by self.now
            (bits_next self.now.range_length (bits_left reader.old)) }
        ensures place { reader.new ≡ bits_on self.now.range_length reader.old }
        ensures rest { bits_left reader.new ≡ drop self.now.range_length (bits_left reader.old) }
        ensures causes { HasCause result (BreaksRange self.now (bits_left reader.old)) }
    {
        let Some(offset) = reader.read_bits(self.range_length) else {
            return Err(HuffmanError::InvalidCode.into());
        };
        Ok(Some(self.value(offset)?))
    }
}
