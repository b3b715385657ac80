//! How a region is combined with the bitmap below it (T.88, 7.4.1.5).
ghost use Rattle.std.specs.Prelude.{◌≡◌, ◌%◌, Ok};
ghost use Rattle.jbig2_base.specs.Results.{Returns};
ghost use Rattle.jbig2_base.specs.Causes.{HasCause, BreaksOperator};
ghost use Rattle.jbig2_base.specs.Combination.{operator_of};

use crate::error::{RegionError, Result};

/// The new colour of a pixel under a region's pixel. The default is `Or`.
#[derive(Clone, Copy, Debug, PartialEq, Eq)]
pub enum CombinationOperator {
    /// Black where either is black.
    Or,
    /// Black where both are black.
    And,
    /// Black where exactly one is black.
    Xor,
    /// Black where both have one colour.
    Xnor,
    /// The region's pixel.
    Replace,
}

impl Default for CombinationOperator {
    ghost is_default = { λ operator. operator_of 0 ≡ Ok operator };

    fn default() -> CombinationOperator {
        CombinationOperator::Or
    }
}

impl CombinationOperator {
    /// The operator whose number is in the low three bits of `value`. The numbers 5 to 7 return
    /// `RegionError::InvalidCombinationOperator`.
    #[tactic(auto, using(crate::proofs::OperatorCauses::operator_cause))]
    pub fn from_value(value: u8) -> Result<CombinationOperator>
        ensures causes { HasCause result (BreaksOperator (value % 8)) }
        ensures value { Returns (λ operator. operator) result (operator_of (value % 8)) }
    {
        match value % 8 {
            0 => Ok(CombinationOperator::Or),
            1 => Ok(CombinationOperator::And),
            2 => Ok(CombinationOperator::Xor),
            3 => Ok(CombinationOperator::Xnor),
            4 => Ok(CombinationOperator::Replace),
            _ => Err(RegionError::InvalidCombinationOperator.into()),
        }
    }
}
