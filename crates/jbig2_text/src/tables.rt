//! The tables of a text region (T.88, 7.4.3.1.6).
ghost use Rattle.jbig2_base.specs.Results.{Returns};
ghost use Rattle.jbig2_coder.specs.inner.TableViews.{customs_view};
ghost use Rattle.jbig2_text.specs.TextRegion.{one_of_two, one_of_three, text_tables};
ghost use Rattle.jbig2_text.specs.inner.FunctionResults.{table_of_refinement, table_of_size};
ghost use Rattle.jbig2_text.specs.inner.TextViews.{tables_view};
ghost use Rattle.jbig2_base.specs.Causes.{HasCause};
ghost use Rattle.jbig2_text.specs.Causes.{BreaksTextTables};
ghost use Rattle.jbig2_text.specs.declared.header.TextRegionHuffmanFlags.{TextRegionHuffmanFlags};

use crate::header::TextRegionHuffmanFlags;
use jbig2_base::error::{HuffmanError, Result};
use jbig2_coder::huffman_table::{HuffmanTable, StandardHuffmanTables};
use jbig2_coder::table_selection::next_custom;
use std::alloc::Allocator;

/// The table for each kind of number (T.88, Table 9).
#[derive(Drop)]
pub struct TextRegionHuffmanTables<'a, A: Allocator> {
    pub first_s: &'a HuffmanTable<A>,
    pub delta_s: &'a HuffmanTable<A>,
    pub delta_t: &'a HuffmanTable<A>,
    pub refinement_width: &'a HuffmanTable<A>,
    pub refinement_height: &'a HuffmanTable<A>,
    pub refinement_x: &'a HuffmanTable<A>,
    pub refinement_y: &'a HuffmanTable<A>,
    pub refinement_size: &'a HuffmanTable<A>,
}

/// The table that a number names: one of these two, or a custom one for 3; and the rest of
/// `customs`.
fn one_of_two<'a, A: Allocator>(
    first: &'a HuffmanTable<A>,
    second: &'a HuffmanTable<A>,
    number: u8,
    customs: &'a [&'a HuffmanTable<A>],
) -> Result<(&'a HuffmanTable<A>, &'a [&'a HuffmanTable<A>])>
    ensures { let meant = one_of_two first.now second.now number (customs_view customs.now) in
        Returns (λ t. (t.0.now, customs_view t.1.now)) result meant }
{
    match number {
        0 => Ok((first, customs)),
        1 => Ok((second, customs)),
        3 => next_custom(customs),
        _ => Err(HuffmanError::InvalidSelection.into()),
    }
}

/// The table that a number names: one of these three, or a custom one; and the rest of `customs`.
fn one_of_three<'a, A: Allocator>(
    first: &'a HuffmanTable<A>,
    second: &'a HuffmanTable<A>,
    third: &'a HuffmanTable<A>,
    number: u8,
    customs: &'a [&'a HuffmanTable<A>],
) -> Result<(&'a HuffmanTable<A>, &'a [&'a HuffmanTable<A>])>
    ensures { let customs = customs_view customs.now in
        let meant = one_of_three first.now second.now third.now number customs in
        Returns (λ t. (t.0.now, customs_view t.1.now)) result meant }
{
    match number {
        0 => Ok((first, customs)),
        1 => Ok((second, customs)),
        2 => Ok((third, customs)),
        _ => next_custom(customs),
    }
}

/// The table that a number names for a refined symbol's differences; and the rest of `customs`.
fn refinement_table<'a, A: Allocator>(
    standard: &'a StandardHuffmanTables<A>,
    number: u8,
    customs: &'a [&'a HuffmanTable<A>],
) -> Result<(&'a HuffmanTable<A>, &'a [&'a HuffmanTable<A>])>
    ensures { let meant = table_of_refinement number (customs_view customs.now) in
        Returns (λ t. (t.0.now, customs_view t.1.now)) result meant }
{
    one_of_two(standard.table_n(), standard.table_o(), number, customs)
}

/// The table that a number names for the sizes of refined symbols; and the rest of `customs`.
fn size_table<'a, A: Allocator>(
    standard: &'a StandardHuffmanTables<A>,
    number: u8,
    customs: &'a [&'a HuffmanTable<A>],
) -> Result<(&'a HuffmanTable<A>, &'a [&'a HuffmanTable<A>])>
    ensures { let meant = table_of_size number (customs_view customs.now) in
        Returns (λ t. (t.0.now, customs_view t.1.now)) result meant }
{
    if number == 0 {
        return Ok((standard.table_a(), customs));
    }
    next_custom(customs)
}

/// The tables that the flags name. Each custom one is the next of `customs`.
///
/// Returns `HuffmanError::InvalidSelection` for a number without meaning, and
/// `HuffmanError::MissingTables` for too few custom tables. It takes no memory.
#[tactic(auto, using(crate::proofs::CausesOfRegions::text_table_cause), unfolding(crate::specs::TextRegion::text_tables))]
pub fn select_tables<'a, A: Allocator>(
    flags: &TextRegionHuffmanFlags,
    customs: &'a [&'a HuffmanTable<A>],
    standard: &'a StandardHuffmanTables<A>,
) -> Result<TextRegionHuffmanTables<'a, A>>
    ensures value { let meant = text_tables flags.now (customs_view customs.now) in
        Returns (λ tables. tables_view tables) result meant }
    ensures causes { HasCause result (BreaksTextTables flags.now (customs_view customs.now)) }
{
    let (first, second) = (standard.table_f(), standard.table_g());
    let (first_s, customs) = one_of_two(first, second, flags.first_s_table, customs)?;
    let (first, second, third) = (standard.table_h(), standard.table_i(), standard.table_j());
    let (delta_s, customs) = one_of_three(first, second, third, flags.delta_s_table, customs)?;
    let (first, second, third) = (standard.table_k(), standard.table_l(), standard.table_m());
    let (delta_t, customs) = one_of_three(first, second, third, flags.delta_t_table, customs)?;
    let (refinement_width, customs) = refinement_table(
        standard,
        flags.refinement_width_table,
        customs,
    )?;
    let (refinement_height, customs) = refinement_table(
        standard,
        flags.refinement_height_table,
        customs,
    )?;
    let (refinement_x, customs) = refinement_table(standard, flags.refinement_x_table, customs)?;
    let (refinement_y, customs) = refinement_table(standard, flags.refinement_y_table, customs)?;
    let (refinement_size, _) = size_table(standard, flags.refinement_size_table, customs)?;
    Ok(TextRegionHuffmanTables {
        first_s,
        delta_s,
        delta_t,
        refinement_width,
        refinement_height,
        refinement_x,
        refinement_y,
        refinement_size,
    })
}
