//! The fewest bits of a code (T.88, 6.5.8.2.3).
ghost use Rattle.std.specs.Prelude.{◌≡◌, ◌^◌, ◌≤◌};
ghost use Rattle.jbig2_coder.specs.CodeLength.{code_length};

/// The fewest bits that can number `count` things, at most 2^22 of them (T.88, 6.5.8.2.3).
pub fn code_length(count: usize) -> u32
    requires { count ≤ 2 ^ 22 }
    ensures value { result ≡ code_length count }
    ensures small { result ≤ 22 }
{
    let mut bits = 0;
    while 1 << bits < count {
        bits += 1;
    }
    bits
}
