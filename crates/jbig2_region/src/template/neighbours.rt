//! The pixels of a template that lie side by side, and their parts of a context.
ghost use Rattle.std.specs.Prelude.{◌≡◌, ℕ, ◌+◌, ◌-◌, ◌*◌, ◌/◌, ◌%◌, ◌^◌, ◌<◌, ◌≤◌};

/// `count` pixels of a row above. The rightmost is `reach` columns right of the pixel that is
/// decoded.
#[derive(Clone, Copy, PartialEq, Eq)]
pub struct Stretch {
    pub reach: u32,
    pub count: u32,
}

/// Pixels side by side: `left` pixels left of the pixel that is decoded, and a stretch in each of
/// the two rows above.
#[derive(Clone, Copy, PartialEq, Eq)]
pub struct Neighbours {
    pub left: u32,
    pub above: Stretch,
    pub top: Stretch,
}

/// The number with `low` in its lowest `count` bits and `high` above them.
#[inline(always)]
pub fn join(low: u32, high: u32, count: u32) -> u32
    requires few { count ≤ 16 }
    requires low { low < 2 ^ count }
    requires high { high < 2 ^ 16 }
    ensures value { result ≡ low + high * 2 ^ count }
    ensures bound { (m : ℕ) → high < 2 ^ m → result < 2 ^ (m + count) }
{
    low + high * (1 << count)
}
