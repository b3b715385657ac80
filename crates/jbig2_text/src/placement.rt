//! The places of the symbols of a text region (T.88, 6.4.5, step 3 c).
ghost use Rattle.std.specs.Prelude.{◌≡◌, if◌then◌else◌, IfOk};
ghost use Rattle.jbig2_base.specs.Results.{Returns};
ghost use Rattle.jbig2_text.specs.Text.{is_right, is_bottom, is_last_along_s, far_end, edge, symbol_placed};
ghost use Rattle.jbig2_text.specs.inner.FunctionResults.{s_before, s_after};
ghost use Rattle.jbig2_text.specs.inner.TextViews.{instance_view, symbol_view};

use crate::coordinates;
use crate::header::{ReferenceCorner, TextRegionFlags};
use crate::symbols::InstanceSymbol;
use jbig2_base::error::Result;
use std::alloc::Allocator;

/// A symbol, and the column and the row of its top left pixel.
#[derive(Drop)]
pub struct Instance<'a, A: Allocator> {
    pub symbol: InstanceSymbol<'a, A>,
    pub x: i32,
    pub y: i32,
}

fn is_right(corner: ReferenceCorner) -> bool
    ensures { result ≡ is_right corner }
{
    match corner {
        ReferenceCorner::BottomRight | ReferenceCorner::TopRight => true,
        ReferenceCorner::BottomLeft | ReferenceCorner::TopLeft => false,
    }
}

fn is_bottom(corner: ReferenceCorner) -> bool
    ensures { result ≡ is_bottom corner }
{
    match corner {
        ReferenceCorner::BottomLeft | ReferenceCorner::BottomRight => true,
        ReferenceCorner::TopLeft | ReferenceCorner::TopRight => false,
    }
}

/// Whether a symbol's corner is the last one along S.
fn is_last_along_s(flags: &TextRegionFlags) -> bool
    ensures { result ≡ is_last_along_s flags.now }
{
    if flags.transposed {
        is_bottom(flags.reference_corner)
    } else {
        is_right(flags.reference_corner)
    }
}

/// S at the other end of a symbol.
fn far_end<A: Allocator>(
    flags: &TextRegionFlags,
    symbol: &InstanceSymbol<'_, A>,
    s: i32,
) -> Result<i32>
    ensures { Returns (λ n. n) result (far_end flags.now (symbol_view symbol.now) s) }
{
    if flags.transposed {
        return coordinates::last_of(s, symbol.height());
    }
    coordinates::last_of(s, symbol.width())
}

/// S where a symbol is placed.
fn s_before<A: Allocator>(
    flags: &TextRegionFlags,
    symbol: &InstanceSymbol<'_, A>,
    s: i32,
) -> Result<i32>
    ensures { Returns (λ n. n) result (s_before flags.now (symbol_view symbol.now) s) }
{
    if is_last_along_s(flags) {
        return far_end(flags, symbol, s);
    }
    Ok(s)
}

/// S after a symbol that is placed at `s`.
fn s_after<A: Allocator>(
    flags: &TextRegionFlags,
    symbol: &InstanceSymbol<'_, A>,
    s: i32,
) -> Result<i32>
    ensures { Returns (λ n. n) result (s_after flags.now (symbol_view symbol.now) s) }
{
    if is_last_along_s(flags) {
        return Ok(s);
    }
    far_end(flags, symbol, s)
}

/// The first column (or row) of a symbol, where `place` may be its last one.
fn edge(at_last: bool, side: u32, place: i32) -> Result<i32>
    ensures { Returns (λ n. n) result (edge at_last side place) }
{
    if at_last {
        return coordinates::first_of(place, side);
    }
    Ok(place)
}

/// The column and the row for this S and T.
fn column_and_row(transposed: bool, s: i32, t: i32) -> (i32, i32)
    ensures column { result.0 ≡ if transposed then t else s }
    ensures row { result.1 ≡ if transposed then s else t }
{
    if transposed {
        return (t, s);
    }
    (s, t)
}

/// Places a symbol at S and T, and gives S after it.
#[tactic(auto, unfolding(crate::specs::Text::symbol_placed))]
pub fn place<'a, A: Allocator>(
    flags: &TextRegionFlags,
    symbol: InstanceSymbol<'a, A>,
    s: i32,
    t: i32,
) -> Result<(Instance<'a, A>, i32)>
    ensures value { let meant = symbol_placed flags.now (symbol_view symbol.entry) s t in
        Returns (λ i. (instance_view i.0, i.1)) result meant }
    ensures symbol { IfOk result (λ i. symbol_view i.0.symbol ≡ symbol_view symbol.entry) }
{
    let start = s_before(flags, &symbol, s)?;
    let (column, row) = column_and_row(flags.transposed, start, t);
    let x = edge(is_right(flags.reference_corner), symbol.width(), column)?;
    let y = edge(is_bottom(flags.reference_corner), symbol.height(), row)?;
    let next = s_after(flags, &symbol, start)?;
    Ok((Instance { symbol, x, y }, next))
}
