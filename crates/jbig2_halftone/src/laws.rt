//! Laws of the definitions that the calls of this crate meet. Each call here does nothing: its contract is the law.
ghost use Rattle.std.specs.Prelude.{ℕ, ◌≤◌, true};
ghost use Rattle.jbig2_region.specs.Steps.{row_loads, skipping_loads};

/// A row of a plane without a mask takes no more loads than a row with a mask may take.
pub fn plain_rows_load_as_few()
    ensures { (w : ℕ) → row_loads true w ≤ skipping_loads w }
{}
