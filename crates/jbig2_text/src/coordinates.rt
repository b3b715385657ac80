//! Sums of coordinates and sizes. A result that isn't a signed number of 32 bits is refused.
ghost use Rattle.std.specs.Prelude.{◌≡◌, ◌*◌, ◌^◌, ◌≤◌, pos, ◌+ℤ◌, ◌-ℤ◌, ◌*ℤ◌};
ghost use Rattle.jbig2_base.specs.Results.{Returns, word_or};
ghost use Rattle.jbig2_base.specs.declared.error.DecodeError.TheVariants.{Symbol};
ghost use Rattle.jbig2_base.specs.declared.error.SymbolError.TheVariants.{InvalidStripDelta};
ghost use Rattle.jbig2_text.specs.Text.{coordinate, side_of, reference_offset};
ghost use Rattle.jbig2_text.specs.inner.FunctionResults.{last_offset};

use jbig2_base::error::{DecodeError, OverflowError, Result, SymbolError};

/// A number, or this error if it isn't a signed number of 32 bits.
fn word_or(number: i64, error: DecodeError) -> Result<i32>
    ensures { Returns (λ n. n) result (word_or error number) }
{
    match i32::try_from(number) {
        Ok(number) => Ok(number),
        Err(_) => Err(error),
    }
}

fn coordinate(number: i64) -> Result<i32>
    ensures { Returns (λ n. n) result (coordinate number) }
{
    word_or(number, OverflowError::PlacementCoordinate.into())
}

/// The sum of a coordinate and a difference.
pub fn place_after(place: i32, difference: i32) -> Result<i32>
    ensures { Returns (λ n. n) result (coordinate (place +ℤ difference)) }
{
    coordinate(i64::from(place) + i64::from(difference))
}

/// The coordinate of a side's last pixel, from that of its first one.
pub fn last_of(first: i32, side: u32) -> Result<i32>
    ensures { Returns (λ n. n) result (coordinate (first +ℤ last_offset side)) }
{
    coordinate(i64::from(first) + (i64::from(side) - 1))
}

/// The coordinate of a side's first pixel, from that of its last one.
pub fn first_of(last: i32, side: u32) -> Result<i32>
    ensures { Returns (λ n. n) result (coordinate (last -ℤ last_offset side)) }
{
    coordinate(i64::from(last) - (i64::from(side) - 1))
}

/// The negative of a coordinate.
pub fn opposite(place: i32) -> Result<i32>
    ensures { Returns (λ n. n) result (coordinate (pos 0 -ℤ place)) }
{
    coordinate(0 - i64::from(place))
}

/// The rows in this many strips of 2 to the power of `log` rows.
pub fn strips(count: i32, log: u8) -> Result<i32>
    requires { log ≤ 3 }
    ensures { let meant = word_or (Symbol InvalidStripDelta) (count *ℤ pos (2 ^ log)) in
        Returns (λ n. n) result meant }
{
    let rows = 1_u32 << log;
    word_or(
        i64::from(count) * i64::from(rows),
        SymbolError::InvalidStripDelta.into(),
    )
}

/// A side of a refined symbol, from that of its reference and a difference.
pub fn refined_side(side: u32, difference: i32) -> Result<u32>
    ensures { Returns (λ n. n) result (side_of (pos side +ℤ difference)) }
{
    let Ok(refined) = u32::try_from(i64::from(side) + i64::from(difference)) else {
        return Err(OverflowError::BitmapDimension.into());
    };
    if refined >= 0x8000_0000 {
        return Err(OverflowError::BitmapDimension.into());
    }
    Ok(refined)
}

/// The offset of a refined symbol's reference along one axis: half the growth and a difference.
pub fn reference_offset(growth: i32, difference: i32) -> Result<i32>
    ensures { Returns (λ n. n) result (reference_offset growth difference) }
{
    word_or(
        i64::from(growth >> 1) + i64::from(difference),
        OverflowError::ReferenceOffset.into(),
    )
}
