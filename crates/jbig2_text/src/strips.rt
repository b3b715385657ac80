//! The strips of a text region (T.88, 6.4.5, steps 1 to 4).
ghost use Rattle.std.specs.Prelude.{◌≡◌, ◌≤◌};
ghost use Rattle.jbig2_base.specs.Results.{Returns};
ghost use Rattle.jbig2_steps.specs.Work.{PaidBut};
ghost use Rattle.jbig2_coder.specs.Integers.{number_steps};
ghost use Rattle.jbig2_text.specs.Text.{strip_delta, strip_start, with_ids, next_cursor, t_in_strip};
ghost use Rattle.jbig2_text.specs.inner.FunctionResults.{end_of_strip};

use crate::coordinates;
use crate::cursor::Cursor;
use crate::header::TextRegionFlags;
use crate::readings::ReadInstances;
use jbig2_base::error::{Result, SymbolError};
use jbig2_steps::Work;
use std::sync::ledger::Ledger;

/// Reads a difference of T, in rows.
#[tactic(auto, unfolding(crate::specs::Text::strip_delta))]
pub fn read_strip_delta<R: ReadInstances, L: Ledger>(
    readings: &mut R,
    flags: &TextRegionFlags,
    work: &mut Work<L>,
) -> Result<i32>
    requires { flags.now.log_strip_size ≤ 3 }
    ensures value { let meant = strip_delta R.readings flags.now (R.state readings.old) in
        Returns (λ t. (t, R.state readings.new)) result meant }
    ensures paid { PaidBut (number_steps 1) work.old work.new }
{
    let delta = readings.delta_t(work)?;
    coordinates::strips(delta, flags.log_strip_size)
}

/// Begins a strip. Gives the place of its first instance, from the T and first S of the last strip.
#[tactic(auto, unfolding(crate::specs::Text::strip_start))]
pub fn begin_strip<R: ReadInstances, L: Ledger>(
    readings: &mut R,
    flags: &TextRegionFlags,
    strip_t: i32,
    first_s: i32,
    work: &mut Work<L>,
) -> Result<Cursor>
    requires { flags.now.log_strip_size ≤ 3 }
    ensures value { let state = R.state readings.old in
        let meant = strip_start R.readings flags.now strip_t first_s state in
        Returns (λ cursor. (cursor, R.state readings.new)) result meant }
    ensures paid { PaidBut (number_steps 2) work.old work.new }
{
    let delta = read_strip_delta(readings, flags, work)?;
    let strip_t = coordinates::place_after(strip_t, delta)?;
    let first = readings.first_s(work)?;
    let first_s = coordinates::place_after(first_s, first)?;
    Ok(Cursor {
        strip_t,
        first_s,
        cur_s: first_s,
    })
}

/// The place of an instance that is `delta` after the last one, or that begins the next strip.
#[inline(always)]
fn move_by<R: ReadInstances, L: Ledger>(
    readings: &mut R,
    flags: &TextRegionFlags,
    cursor: Cursor,
    delta: Option<i32>,
    work: &mut Work<L>,
) -> Result<Cursor>
    requires { flags.now.log_strip_size ≤ 3 }
    ensures value { let meant = with_ids R.readings flags.now cursor delta (R.state readings.old) in
        Returns (λ next. (next, R.state readings.new)) result meant }
    ensures paid { PaidBut (number_steps 2) work.old work.new }
{
    let Some(delta) = delta else {
        return begin_strip(readings, flags, cursor.strip_t, cursor.first_s, work);
    };
    let after_ids = coordinates::place_after(cursor.cur_s, delta)?;
    let cur_s = coordinates::place_after(after_ids, i32::from(flags.delta_s_offset))?;
    Ok(Cursor { cur_s, ..cursor })
}

/// Reads how far the next instance is, and gives its place.
#[inline(always)]
#[tactic(auto, unfolding(crate::specs::Text::next_cursor))]
pub fn move_on<R: ReadInstances, L: Ledger>(
    readings: &mut R,
    flags: &TextRegionFlags,
    cursor: Cursor,
    work: &mut Work<L>,
) -> Result<Cursor>
    requires { flags.now.log_strip_size ≤ 3 }
    ensures value { let meant = next_cursor R.readings flags.now cursor (R.state readings.old) in
        Returns (λ next. (next, R.state readings.new)) result meant }
    ensures paid { PaidBut (number_steps 3) work.old work.new }
{
    let delta = readings.delta_s(work)?;
    move_by(readings, flags, cursor, delta, work)
}

/// Reads T in the strip. It is 0 in strips of one row.
pub fn read_t_in_strip<R: ReadInstances, L: Ledger>(
    readings: &mut R,
    flags: &TextRegionFlags,
    work: &mut Work<L>,
) -> Result<i32>
    requires { flags.now.log_strip_size ≤ 3 }
    ensures value { let meant = t_in_strip R.readings flags.now (R.state readings.old) in
        Returns (λ t. (t, R.state readings.new)) result meant }
    ensures paid { PaidBut (number_steps 1) work.old work.new }
{
    if flags.log_strip_size == 0 {
        return Ok(0);
    }
    readings.t_bits(flags.log_strip_size, work)
}

/// Whether a strip may end with this difference of S.
pub fn check_end(strict: bool, delta: Result<Option<i32>>) -> Result<()>
    ensures { Returns (λ ends. ends) result (end_of_strip strict delta) }
{
    if !strict {
        return Ok(());
    }
    match delta {
        Ok(None) => Ok(()),
        Ok(Some(_)) => Err(SymbolError::TooManyInstances.into()),
        Err(error) => Err(error),
    }
}
