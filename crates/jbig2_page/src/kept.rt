//! The values that segments keep for later ones, under their numbers (T.88, 7.3.1).
ghost use Rattle.std.specs.Prelude.{◌≡◌};
ghost use Rattle.jbig2_page.specs.Names.{first_kept, kept_of};
ghost use Rattle.jbig2_page.specs.inner.KeptViews.{found_value};

pub(crate) mod names;
pub(crate) mod referred;
pub(crate) mod segments;

/// What a segment keeps for later ones, under its number.
#[derive(Drop)]
pub(crate) struct Kept<T> {
    pub(crate) segment_number: u32,
    pub(crate) value: T,
}

/// The first value that is kept under a number.
pub(crate) fn first_under<T>(kept: &[Kept<T>], number: u32) -> Option<&T>
    ensures { found_value (λ v. v) result ≡ first_kept number kept.now }
{
    for candidate in kept {
        if candidate.segment_number == number {
            return Some(&candidate.value);
        }
    }
    None
}

/// What a number names: the page's own value, else that of the globals.
pub(crate) fn kept_of<'a, T>(
    own: &'a [Kept<T>],
    shared: &'a [Kept<T>],
    number: u32,
) -> Option<&'a T>
    ensures { found_value (λ v. v) result ≡ kept_of number own.now shared.now }
{
    if let Some(value) = first_under(own, number) {
        return Some(value);
    }
    first_under(shared, number)
}
