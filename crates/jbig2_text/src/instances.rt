//! The instances of a text region (T.88, 6.4.5). Each is drawn as soon as it is read.
ghost use Rattle.std.specs.Prelude.{◌≡◌, ◌+◌, ◌*◌, ◌≤◌, nat_lt, option_map, OnErr};
ghost use Rattle.jbig2_base.specs.Results.{Gives};
ghost use Rattle.jbig2_base.specs.Grid.{blank};
ghost use Rattle.jbig2_steps.specs.Work.{Paid, PaidBut, paid_words};
ghost use Rattle.jbig2_coder.specs.Integers.{number_steps};
ghost use Rattle.jbig2_text.specs.Text.{with_symbol, with_instance, after_instances, text_region};
ghost use Rattle.jbig2_text.specs.inner.FunctionResults.{KeepsSize, reaching, some_strips, strips, with_last, with_next_instance};
ghost use Rattle.jbig2_text.specs.inner.TextViews.{params_view, symbol_view};

use crate::coordinates;
use crate::cursor::Cursor;
use crate::header::TextRegionFlags;
use crate::params::TextParams;
use crate::placement::place;
use crate::readings::ReadInstances;
use crate::refining::Refining;
use crate::strips::{begin_strip, check_end, move_on, read_strip_delta, read_t_in_strip};
use crate::symbols::{InstanceSymbol, read_symbol};
use jbig2_base::bitmap::Bitmap;
use jbig2_base::error::{Result, SymbolError};
use jbig2_steps::{Work, prices};
use std::alloc::Allocator;
use std::sync::ledger::Ledger;

/// How many instances there may be for each byte of a segment.
pub(crate) const INSTANCES_PER_BYTE: usize = 32;

/// Draws a symbol at CURS and at T, and returns the place after it. Without a symbol nothing
/// changes.
fn draw_symbol<A: Allocator, L: Ledger>(
    flags: &TextRegionFlags,
    t: i32,
    symbol: Option<InstanceSymbol<'_, A>>,
    cursor: Cursor,
    region: &mut Bitmap<A>,
    work: &mut Work<L>,
) -> Result<Cursor>
    ensures value { let ib = option_map (λ x. symbol_view x) symbol.entry in
        let meant = with_symbol flags.now region.old cursor t ib in
        Gives (λ next. (region.new, next)) result meant }
    ensures size { KeepsSize region.old region.new }
    ensures paid { Paid work.old work.new }
{
    let Some(symbol) = symbol else {
        return Ok(cursor);
    };
    let (instance, cur_s) = place(flags, symbol, cursor.cur_s, t)?;
    let symbol = &instance.symbol;
    work.pay_bitmap(symbol.width(), symbol.height())?;
    let operator = flags.combination_operator;
    symbol.draw(region, instance.x, instance.y, operator, work);
    Ok(Cursor { cur_s, ..cursor })
}

/// Reads and draws the instance at the cursor. Returns the cursor after it.
#[tactic(auto, unfolding(crate::specs::Text::with_instance))]
pub(crate) fn draw_instance<R: ReadInstances, A: Allocator + Clone, L: Ledger>(
    readings: &mut R,
    refining: &mut Refining<A>,
    params: &TextParams<'_, A>,
    cursor: Cursor,
    region: &mut Bitmap<A>,
    work: &mut Work<L>,
) -> Result<Cursor>
    requires { params.now.flags.log_strip_size ≤ 3 }
    ensures value { let before = reaching region.old cursor refining.old (R.state readings.old) in
        let meant = with_instance R.readings (params_view params.now) before in
        Gives (λ next. reaching region.new next refining.new (R.state readings.new)) result meant }
    ensures size { KeepsSize region.old region.new }
    ensures paid { PaidBut (number_steps 7) work.old work.new }
{
    let t = read_t_in_strip(readings, &params.flags, work)?;
    let t = coordinates::place_after(cursor.strip_t, t)?;
    let id = readings.id(work)?;
    let alloc = refining.allocator().clone()?;
    let symbol = read_symbol(alloc, readings, refining, params, id, work)?;
    draw_symbol(&params.flags, t, symbol, cursor, region, work)
}

/// Reads and draws the instance at the cursor, and moves the cursor on to the next one.
fn draw_and_move<R: ReadInstances, A: Allocator + Clone, L: Ledger>(
    readings: &mut R,
    refining: &mut Refining<A>,
    params: &TextParams<'_, A>,
    cursor: Cursor,
    region: &mut Bitmap<A>,
    work: &mut Work<L>,
) -> Result<Cursor>
    requires { params.now.flags.log_strip_size ≤ 3 }
    ensures value { let before = reaching region.old cursor refining.old (R.state readings.old) in
        let meant = with_next_instance R.readings (params_view params.now) before in
        Gives (λ next. reaching region.new next refining.new (R.state readings.new)) result meant }
    ensures size { KeepsSize region.old region.new }
    ensures paid { PaidBut (number_steps 10) work.old work.new }
{
    let after = draw_instance(readings, refining, params, cursor, region, work)?;
    move_on(readings, &params.flags, after, work)
}

/// Reads and draws this many instances, where another comes after them.
fn draw_inner<R: ReadInstances, A: Allocator + Clone, L: Ledger>(
    readings: &mut R,
    refining: &mut Refining<A>,
    params: &TextParams<'_, A>,
    count: u32,
    cursor: Cursor,
    region: &mut Bitmap<A>,
    work: &mut Work<L>,
) -> Result<Cursor>
    requires { params.now.flags.log_strip_size ≤ 3 }
    ensures value { let before = reaching region.old cursor refining.old (R.state readings.old) in
        let meant = after_instances R.readings (params_view params.now) count before in
        Gives (λ next. reaching region.new next refining.new (R.state readings.new)) result meant }
    ensures size { KeepsSize region.old region.new }
    ensures paid { PaidBut (number_steps (10 * count)) work.old work.new }
{
    let mut cursor = cursor;
    for _ in 0..count {
        cursor = match draw_and_move(readings, refining, params, cursor, region, work) {
            Ok(next) => next,
            Err(error) => return Err(error),
        };
    }
    Ok(cursor)
}

/// Reads and draws the last instance, and reads the end of its strip.
fn draw_last<R: ReadInstances, A: Allocator + Clone, L: Ledger>(
    readings: &mut R,
    refining: &mut Refining<A>,
    params: &TextParams<'_, A>,
    cursor: Cursor,
    region: &mut Bitmap<A>,
    work: &mut Work<L>,
) -> Result<()>
    requires { params.now.flags.log_strip_size ≤ 3 }
    ensures value { let before = reaching region.old cursor refining.old (R.state readings.old) in
        let meant = with_last R.readings (params_view params.now) before in
        Gives (λ _. (region.new, refining.new, R.state readings.new)) result meant }
    ensures size { KeepsSize region.old region.new }
    ensures paid { PaidBut (number_steps 8) work.old work.new }
{
    draw_instance(readings, refining, params, cursor, region, work)?;
    let end = readings.delta_s(work);
    check_end(params.strict, end)
}

/// Reads the strips after this T, and draws their instances. There is at least one.
fn draw_some_strips<R: ReadInstances, A: Allocator + Clone, L: Ledger>(
    readings: &mut R,
    refining: &mut Refining<A>,
    params: &TextParams<'_, A>,
    strip_t: i32,
    region: &mut Bitmap<A>,
    work: &mut Work<L>,
) -> Result<()>
    requires strip { params.now.flags.log_strip_size ≤ 3 }
    requires some { 1 ≤ params.now.num_instances }
    ensures value { let p = params_view params.now in
        let state = R.state readings.old in
        let meant = some_strips R.readings p region.old strip_t refining.old state in
        Gives (λ _. (region.new, refining.new, R.state readings.new)) result meant }
    ensures size { KeepsSize region.old region.new }
    ensures paid { PaidBut (number_steps (10 * params.now.num_instances)) work.old work.new }
{
    let first = begin_strip(readings, &params.flags, strip_t, 0, work)?;
    let inner = params.num_instances - 1;
    let last = draw_inner(readings, refining, params, inner, first, region, work)?;
    draw_last(readings, refining, params, last, region, work)
}

/// Reads all strips after this T, where there are any, and draws their instances.
fn draw_strips<R: ReadInstances, A: Allocator + Clone, L: Ledger>(
    readings: &mut R,
    refining: &mut Refining<A>,
    params: &TextParams<'_, A>,
    strip_t: i32,
    region: &mut Bitmap<A>,
    work: &mut Work<L>,
) -> Result<()>
    requires { params.now.flags.log_strip_size ≤ 3 }
    ensures value { let p = params_view params.now in
        let state = R.state readings.old in
        let meant = strips R.readings p region.old strip_t refining.old state in
        Gives (λ _. (region.new, refining.new, R.state readings.new)) result meant }
    ensures size { KeepsSize region.old region.new }
    ensures paid { Paid work.old work.new }
{
    if params.num_instances == 0 {
        return Ok(());
    }
    work.pay(u64::from(params.num_instances) * prices::INSTANCE)?;
    draw_some_strips(readings, refining, params, strip_t, region, work)
}

/// Whether there are more instances than the segment's bytes allow.
pub(crate) fn is_too_many(count: u32, data_len: usize) -> bool
    ensures { result ≡ nat_lt (32 * data_len) count }
{
    data_len.saturating_mul(INSTANCES_PER_BYTE) < count as usize
}

/// Reads all instances and draws them, the first one first. After an error some are drawn.
#[tactic(auto, unfolding(crate::specs::Text::text_region))]
fn draw_instances<R: ReadInstances, A: Allocator + Clone, L: Ledger>(
    readings: &mut R,
    refining: &mut Refining<A>,
    params: &TextParams<'_, A>,
    region: &mut Bitmap<A>,
    work: &mut Work<L>,
) -> Result<()>
    requires { params.now.flags.log_strip_size ≤ 3 }
    ensures value { let state = R.state readings.old in
        let meant = text_region R.readings (params_view params.now) region.old refining.old state in
        Gives (λ _. (region.new, refining.new, R.state readings.new)) result meant }
    ensures size { KeepsSize region.old region.new }
    ensures paid { PaidBut (number_steps 1) work.old work.new }
{
    if is_too_many(params.num_instances, params.data_len) {
        return Err(SymbolError::TooManyInstances.into());
    }
    let delta = read_strip_delta(readings, &params.flags, work)?;
    let strip_t = coordinates::opposite(delta)?;
    draw_strips(readings, refining, params, strip_t, region, work)
}

/// Reads the instances of a text region (T.88, 6.4.5), where `readings` and `refining` go on from
/// their states. Draws them onto `region`, which is all in its default colour, and after an error
/// is so again. Refined symbols take the allocator of `refining`.
///
/// The errors are those that `decode_into` returns after the errors of its tables.
pub fn draw_instances_by<R: ReadInstances, A: Allocator + Clone, L: Ledger>(
    readings: &mut R,
    refining: &mut Refining<A>,
    params: &TextParams<'_, A>,
    region: &mut Bitmap<A>,
    work: &mut Work<L>,
) -> Result<()>
    requires { params.now.flags.log_strip_size ≤ 3 }
    ensures value { let state = R.state readings.old in
        let meant = text_region R.readings (params_view params.now) region.old refining.old state in
        Gives (λ _. (region.new, refining.new, R.state readings.new)) result meant }
    ensures same { let black = params.now.flags.default_pixel in
        region.old ≡ blank region.old.width region.old.height black
        → OnErr result (region.new ≡ region.old) }
    ensures paid { let words = paid_words region.old.width region.old.height in
        PaidBut (number_steps 1 + words) work.old work.new }
{
    let drawn = draw_instances(readings, refining, params, region, work);
    if drawn.is_err() {
        region.fill(params.flags.default_pixel, &mut work.steps);
    }
    drawn
}
