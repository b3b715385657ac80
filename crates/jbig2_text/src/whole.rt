//! The whole instances of a text region whose data is cut off (our own rule).
ghost use Rattle.std.specs.Prelude.{◌≡◌, ◌*◌, ◌≤◌, min, length, Ok};
ghost use Rattle.jbig2_base.specs.Results.{Gives, Returns};
ghost use Rattle.jbig2_base.specs.Grid.{max_side};
ghost use Rattle.jbig2_coder.specs.inner.TableViews.{customs_view};
ghost use Rattle.jbig2_steps.specs.Work.{Paid, PaidBut};
ghost use Rattle.jbig2_coder.specs.Integers.{number_steps};
ghost use Rattle.jbig2_text.specs.Text.{max_symbols};
ghost use Rattle.jbig2_text.specs.WholeInstances.{first_cursor, whole_by, whole_from, whole_from_start, whole_instances};
ghost use Rattle.jbig2_text.specs.inner.FunctionResults.{CountsAt, reaching};
ghost use Rattle.jbig2_text.specs.inner.TextViews.{header_view, params_view, symbols_view};

use crate::coordinates;
use crate::cursor::Cursor;
use crate::decoding::{params_of, refining_of, start_coded, start_prefixed};
use crate::header::{TextRegionCoding, TextRegionFlags, TextRegionHeader};
use crate::instances::{INSTANCES_PER_BYTE, draw_instance, is_too_many};
use crate::params::TextParams;
use crate::readings::ReadInstances;
use crate::refining::Refining;
use crate::strips::{begin_strip, move_on, read_strip_delta};
use jbig2_base::bitmap::{Bitmap, check_sides};
use jbig2_base::error::{DecodeError, Result};
use jbig2_coder::huffman_table::{HuffmanTable, StandardHuffmanTables};
use jbig2_steps::{Work, prices};
use std::alloc::Allocator;
use std::sync::ledger::Ledger;

/// The count at an error. Without memory there is none.
fn count_at_error(error: DecodeError, counted: u32) -> Result<u32>
    ensures { CountsAt error counted result }
{
    match error {
        DecodeError::OutOfMemory => Err(DecodeError::OutOfMemory),
        _ => Ok(counted),
    }
}

/// The most instances that are counted.
fn most_instances(count: u32, data_len: usize) -> u32
    ensures { result ≡ min count (32 * data_len) }
{
    if is_too_many(count, data_len) {
        return (data_len * INSTANCES_PER_BYTE) as u32;
    }
    count
}

/// Reads the place of a region's first instance.
#[tactic(auto, unfolding(crate::specs::WholeInstances::first_cursor))]
fn find_first<R: ReadInstances, L: Ledger>(
    readings: &mut R,
    flags: &TextRegionFlags,
    work: &mut Work<L>,
) -> Result<Cursor>
    requires { flags.now.log_strip_size ≤ 3 }
    ensures value { let meant = first_cursor R.readings flags.now (R.state readings.old) in
        Returns (λ cursor. (cursor, R.state readings.new)) result meant }
    ensures paid { PaidBut (number_steps 3) work.old work.new }
{
    let delta = read_strip_delta(readings, flags, work)?;
    let strip_t = coordinates::opposite(delta)?;
    begin_strip(readings, flags, strip_t, 0, work)
}

/// How many of the next `most` instances are whole. Draws them, since later ones may need them.
fn count_from<R: ReadInstances, A: Allocator + Clone, L: Ledger>(
    readings: &mut R,
    refining: &mut Refining<A>,
    params: &TextParams<'_, A>,
    most: u32,
    cursor: Cursor,
    region: &mut Bitmap<A>,
    work: &mut Work<L>,
) -> Result<u32>
    requires { params.now.flags.log_strip_size ≤ 3 }
    ensures value { let first = reaching region.old cursor refining.old (R.state readings.old) in
        let meant = whole_from R.readings (params_view params.now) most first in
        Gives (λ n. n) result (Ok meant) }
    ensures paid { PaidBut (number_steps (10 * most)) work.old work.new }
{
    let mut cursor = cursor;
    for counted in 0..most {
        let after = match draw_instance(readings, refining, params, cursor, region, work) {
            Ok(after) => after,
            Err(error) => return count_at_error(error, counted),
        };
        if !readings.is_within_data() {
            return Ok(counted);
        }
        cursor = match move_on(readings, &params.flags, after, work) {
            Ok(next) => next,
            Err(error) => return count_at_error(error, counted + 1),
        };
    }
    Ok(most)
}

/// How many instances are whole, where `readings` and `refining` are at a region's start.
fn count_by<R: ReadInstances, A: Allocator + Clone, L: Ledger>(
    readings: &mut R,
    refining: &mut Refining<A>,
    params: &TextParams<'_, A>,
    region: &mut Bitmap<A>,
    work: &mut Work<L>,
) -> Result<u32>
    requires { params.now.flags.log_strip_size ≤ 3 }
    ensures value { let state = R.state readings.old in
        let meant = whole_by R.readings (params_view params.now) region.old refining.old state in
        Gives (λ n. n) result (Ok meant) }
    ensures paid { Paid work.old work.new }
{
    let most = most_instances(params.num_instances, params.data_len);
    if most == 0 {
        return Ok(0);
    }
    work.pay(u64::from(most) * prices::INSTANCE)?;
    let first = match find_first(readings, &params.flags, work) {
        Ok(first) => first,
        Err(error) => return count_at_error(error, 0),
    };
    count_from(readings, refining, params, most, first, region, work)
}

/// How many instances of a region are whole, with readings that are at its start.
fn count_from_start<R: ReadInstances, A: Allocator + Clone, L: Ledger>(
    alloc: A,
    readings: &mut R,
    header: &TextRegionHeader<'_, A>,
    symbols: &[&Bitmap<A>],
    work: &mut Work<L>,
) -> Result<u32>
    requires strips { header.now.flags.log_strip_size ≤ 3 }
    requires wide { header.now.region_info.width ≤ max_side }
    requires high { header.now.region_info.height ≤ max_side }
    ensures value { let h = header_view header.now in
        let state = R.state readings.old in
        let meant = whole_from_start h (symbols_view symbols.now) R.readings state in
        Gives (λ n. n) result (Ok meant) }
    ensures paid { Paid work.old work.new }
{
    let info = &header.region_info;
    work.pay_bitmap(info.width, info.height)?;
    let black = header.flags.default_pixel;
    let mut region = Bitmap::new_with(
        alloc.clone()?,
        info.width,
        info.height,
        black,
        &mut work.steps,
    )?;
    let mut refining = refining_of(alloc, header)?;
    let params = params_of(header, symbols);
    count_by(readings, &mut refining, &params, &mut region, work)
}

/// How many instances of a text region are whole, from the first one on: all up to the end of the
/// instance was read within the data, and without an error. Takes what `decode` takes. The count is
/// at most 32 for each byte of the segment, and 0 for a region with a side above 65535. Draws the
/// instances on a bitmap of its own.
///
/// The only error is `OutOfMemory`, where there is no memory or where the limit of work is reached.
#[tactic(auto, unfolding(crate::specs::WholeInstances::whole_instances))]
pub fn whole_instances<A: Allocator + Clone, L: Ledger>(
    alloc: A,
    header: &TextRegionHeader<'_, A>,
    symbols: &[&Bitmap<A>],
    referred_tables: &[&HuffmanTable<A>],
    standard_tables: &StandardHuffmanTables<A>,
    work: &mut Work<L>,
) -> Result<u32>
    requires strips { header.now.flags.log_strip_size ≤ 3 }
    requires few { length symbols.now ≤ max_symbols }
    ensures value { let customs = customs_view referred_tables.now in
        let meant = whole_instances (header_view header.now) (symbols_view symbols.now) customs in
        Gives (λ n. n) result (Ok meant) }
    ensures paid { Paid work.old work.new }
{
    if check_sides(header.region_info.width, header.region_info.height).is_err() {
        return Ok(0);
    }
    match &header.coding {
        TextRegionCoding::Arithmetic => {
            let mut readings = start_coded(alloc.clone()?, header, symbols)?;
            count_from_start(alloc, &mut readings, header, symbols, work)
        }
        TextRegionCoding::Huffman { tables, ids } => {
            let started = start_prefixed(header, tables, ids, referred_tables, standard_tables);
            let Ok(mut readings) = started else {
                return Ok(0);
            };
            count_from_start(alloc, &mut readings, header, symbols, work)
        }
    }
}
