//! Decodes a region whose header was parsed (T.88, 7.4.3 and 7.4.5 to 7.4.7), and leaves out its rows below the page.
ghost use Rattle.std.specs.Prelude.{◌≡◌, ◌≤◌, ◌<◌, ◌+◌, ◌*◌, ◌-ℤ◌, ℕ, IfErr, IfOk, pos};
ghost use Rattle.std.specs.Int.{w32, cast_signed};
ghost use Rattle.jbig2_base.specs.Results.{Gives};
ghost use Rattle.jbig2_base.specs.Grid.{blank};
ghost use Rattle.jbig2_region.specs.inner.RegionViews.{region_view};
ghost use Rattle.jbig2_page.specs.Page.{Drawing, with_drawn_region};
ghost use Rattle.jbig2_page.specs.inner.ParsedRegions.{IsDecodable, placed_region, region_grid, info_of, initial_of};
ghost use Rattle.jbig2_page.specs.inner.RegionPrices.{counts_of, price_besides, price_of_info, words_of_info};
ghost use Rattle.jbig2_steps.specs.Work.{Paid, PaidBeside, price_of_bitmap, budget};

use crate::kept::referred::ReferredSegments;
use crate::region::cell_price::pay_cells;
use crate::workspace::{MOST_CONTEXTS, Workspace};
use jbig2_base::bitmap::{Bitmap, CombinationOperator, check_sides};
use jbig2_base::error::{DecodeError, Result};
use jbig2_coder::arithmetic_decoder::ArithmeticDecoderContext;
use jbig2_coder::huffman_table::StandardHuffmanTables;
use jbig2_halftone::halftone::{self, HalftoneRegionHeader};
use jbig2_halftone::pattern::PatternDictionary;
use jbig2_region::decoded_region::DecodedRegion;
use jbig2_region::generic::{self, GenericRegionHeader};
use jbig2_region::generic_refinement::{self, GenericRefinementRegionHeader};
use jbig2_region::region_info::RegionSegmentInfo;
use jbig2_steps::Work;
use jbig2_text::header::TextRegionHeader;
use std::alloc::Allocator;
use std::sync::ledger::Ledger;

/// What is needed to decode a region: its header with the coded bytes, and what it refers to.
pub(crate) enum ParsedRegion<'a, 'n, 'r, A: Allocator> {
    Text {
        header: TextRegionHeader<'a, A>,
        referred: ReferredSegments<'n, A>,
    },
    Halftone {
        header: HalftoneRegionHeader<'a>,
        patterns: &'n PatternDictionary<A>,
    },
    Generic {
        header: GenericRegionHeader<'a>,
    },
    Refinement {
        header: GenericRefinementRegionHeader<'a>,
        reference: &'r DecodedRegion<A>,
    },
    PageRefinement {
        header: GenericRefinementRegionHeader<'a>,
        /// The page's area that is refined.
        area: DecodedRegion<A>,
    },
    /// What is there of a region whose data is cut off. It is decoded already.
    Part {
        region: DecodedRegion<A>,
    },
}

impl<A: Allocator> Drop for ParsedRegion<'_, '_, '_, A> {
    fn drop(self) {
        match self {
            ParsedRegion::Text {
                header: _,
                referred: _,
            } => {}
            ParsedRegion::Halftone {
                header: _,
                patterns: _,
            } => {}
            ParsedRegion::Generic { header: _ } => {}
            ParsedRegion::Refinement {
                header: _,
                reference: _,
            } => {}
            ParsedRegion::PageRefinement { header: _, area: _ } => {}
            ParsedRegion::Part { region: _ } => {}
        }
    }
}

/// How many of a region's rows, from its first one on, do not lie below a page of this height.
fn rows_above_end(info: &RegionSegmentInfo, page_height: u32) -> u32
    ensures fewer { result ≤ info.now.height }
    ensures others { (j n : ℕ) → j < page_height →
        pos j -ℤ cast_signed w32 info.now.y_location ≡ pos n → n < info.now.height → n < result }
{
    let above_end = i64::from(page_height) - i64::from(info.y_location.cast_signed());
    if above_end <= 0 {
        return 0;
    }
    if above_end < i64::from(info.height) {
        return above_end as u32;
    }
    info.height
}

impl<'a, 'n, 'r, A: Allocator + Clone> ParsedRegion<'a, 'n, 'r, A> {
    pub(crate) fn region_info(&self) -> RegionSegmentInfo
        ensures { result ≡ info_of self.now }
    {
        match self {
            ParsedRegion::Text { header, .. } => header.region_info,
            ParsedRegion::Halftone { header, .. } => header.region_info,
            ParsedRegion::Generic { header } => header.region_info,
            ParsedRegion::Refinement { header, .. } => header.region_info,
            ParsedRegion::PageRefinement { header, .. } => header.region_info,
            ParsedRegion::Part { region } => RegionSegmentInfo {
                width: region.bitmap.width(),
                height: region.bitmap.height(),
                x_location: region.x_location,
                y_location: region.y_location,
                combination_operator: region.combination_operator,
            },
        }
    }

    /// The region's colour before anything is drawn, `true` for black.
    pub(crate) fn initial_pixel(&self) -> bool
        ensures { result ≡ initial_of self.now }
    {
        match self {
            ParsedRegion::Text { header, .. } => header.flags.default_pixel,
            ParsedRegion::Halftone { header, .. } => header.flags.initial_pixel_color,
            ParsedRegion::Generic { .. } => false,
            ParsedRegion::Refinement { .. } => false,
            ParsedRegion::PageRefinement { .. } => false,
            ParsedRegion::Part { .. } => false,
        }
    }

    /// Takes the work of a region, without the bitmaps of its size: that of its cells or its coded bytes. Symbols
    /// are paid when they are listed.
    fn pay_besides<L: Ledger>(&self, work: &mut Work<L>) -> Result<()>
        ensures memory { IfErr result (λ e. e ≡ DecodeError.OutOfMemory) }
        ensures paid { Paid work.old work.new }
        ensures taken { IfOk result
            (λ _. budget work.new + 32 * price_besides self.now ≡ budget work.old) }
    {
        match self {
            ParsedRegion::Text { .. } => Ok(()),
            ParsedRegion::Halftone { header, patterns } => pay_cells(header, patterns, work),
            ParsedRegion::Generic { header } => Ok(work.pay(header.bytes.len() as u64)?),
            ParsedRegion::Refinement { .. } => Ok(()),
            ParsedRegion::PageRefinement { .. } => Ok(()),
            ParsedRegion::Part { .. } => Ok(()),
        }
    }

    /// Takes the work of `count` bitmaps of the region's size, and its other work.
    pub(crate) fn pay_bitmaps<L: Ledger>(&self, count: u64, work: &mut Work<L>) -> Result<()>
        ensures memory { IfErr result (λ e. e ≡ DecodeError.OutOfMemory) }
        ensures paid { Paid work.old work.new }
        ensures taken { let price = price_of_info self.now * count + price_besides self.now in
            IfOk result (λ _. budget work.new + 32 * price ≡ budget work.old) }
    {
        self.pay_besides(work)?;
        let info = self.region_info();
        work.pay_bitmaps(count, info.width, info.height)?;
        Ok(())
    }

    /// Decodes the region into a bitmap that has its size and is all in its initial colour.
    pub(crate) fn decode_into<L: Ledger>(
        &self,
        bitmap: &mut Bitmap<A>,
        workspace: &mut Workspace<A>,
        work: &mut Work<L>,
    ) -> Result<()>
        requires parsed { IsDecodable self.now }
        requires coloured { let info = info_of self.now in
            bitmap.old ≡ blank info.width info.height (initial_of self.now) }
        ensures value { Gives (λ _. bitmap.new) result (region_grid self.now) }
        ensures paid { PaidBeside (words_of_info self.now) (counts_of self.now) work.old work.new }
    {
        let (alloc, tables) = (&workspace.alloc, &workspace.standard_tables);
        let decoded = self.decode_kind(alloc, tables, &mut workspace.contexts, bitmap, work);
        workspace.contexts.truncate(MOST_CONTEXTS);
        decoded
    }

    /// Does the same with the parts of a workspace. More contexts may be left than `MOST_CONTEXTS`.
    fn decode_kind<L: Ledger>(
        &self,
        alloc: &A,
        standard_tables: &StandardHuffmanTables<A>,
        contexts: &mut Vec<ArithmeticDecoderContext, A>,
        bitmap: &mut Bitmap<A>,
        work: &mut Work<L>,
    ) -> Result<()>
        requires parsed { IsDecodable self.now }
        requires coloured { let info = info_of self.now in
            bitmap.old ≡ blank info.width info.height (initial_of self.now) }
        ensures value { Gives (λ _. bitmap.new) result (region_grid self.now) }
        ensures paid { PaidBeside (words_of_info self.now) (counts_of self.now) work.old work.new }
    {
        match self {
            ParsedRegion::Text { header, referred } => jbig2_text::decode_into(
                alloc.clone()?,
                header,
                &referred.symbols,
                &referred.tables,
                standard_tables,
                bitmap,
                work,
            ),
            ParsedRegion::Halftone { header, patterns } => {
                let alloc = alloc.clone()?;
                halftone::decode_into(alloc, header, patterns, bitmap, contexts, &mut work.steps)
            }
            ParsedRegion::Generic { header } => {
                generic::decode_into(header, bitmap, contexts, &mut work.steps)
            }
            ParsedRegion::Refinement { header, reference } => {
                generic_refinement::decode_into(
                    header,
                    reference,
                    bitmap,
                    contexts,
                    &mut work.steps,
                )
            }
            ParsedRegion::PageRefinement { header, area } => {
                generic_refinement::decode_into(header, area, bitmap, contexts, &mut work.steps)
            }
            ParsedRegion::Part { region } => {
                let over = CombinationOperator::Replace;
                bitmap.combine(&region.bitmap, 0, 0, over, &mut work.steps);
                Ok(())
            }
        }
    }

    /// The region without the rows that lie below a page of this height, where these change no pixel of the page and no
    /// error: in regions by the arithmetic coder, except text, halftones, and a refinement whose height is refused.
    pub(crate) fn above_end(self, page_height: u32) -> ParsedRegion<'a, 'n, 'r, A>
        requires { IsDecodable self }
        ensures decodable { IsDecodable result }
        ensures same_page { (d : Drawing) → d.grid.height ≡ page_height →
            with_drawn_region d (placed_region result)
            ≡ with_drawn_region d (placed_region self.entry) }
    {
        match self {
            ParsedRegion::Generic { mut header } => {
                if header.mmr {
                    return ParsedRegion::Generic { header };
                }
                header.region_info.height = rows_above_end(&header.region_info, page_height);
                ParsedRegion::Generic { header }
            }
            ParsedRegion::Refinement {
                mut header,
                reference,
            } => {
                if reference.bitmap.height() < header.region_info.height {
                    return ParsedRegion::Refinement { header, reference };
                }
                header.region_info.height = rows_above_end(&header.region_info, page_height);
                ParsedRegion::Refinement { header, reference }
            }
            ParsedRegion::PageRefinement { mut header, area } => {
                if area.bitmap.height() < header.region_info.height {
                    return ParsedRegion::PageRefinement { header, area };
                }
                header.region_info.height = rows_above_end(&header.region_info, page_height);
                ParsedRegion::PageRefinement { header, area }
            }
            ParsedRegion::Text { header, referred } => ParsedRegion::Text { header, referred },
            ParsedRegion::Halftone { header, patterns } => {
                ParsedRegion::Halftone { header, patterns }
            }
            ParsedRegion::Part { region } => ParsedRegion::Part { region },
        }
    }

    /// Decodes the region into a bitmap of its own. It also takes the work of a second bitmap, for what the caller does
    /// with the region.
    pub(crate) fn decode<L: Ledger>(
        self,
        workspace: &mut Workspace<A>,
        work: &mut Work<L>,
    ) -> Result<DecodedRegion<A>>
        requires { IsDecodable self }
        ensures value { Gives (λ region. region_view region) result (placed_region self.entry) }
        ensures paid { Paid work.old work.new }
        ensures ahead { IfOk result (λ region. let page = region.bitmap in
            budget work.new + 32 * price_of_bitmap page.width page.height ≤ budget work.old) }
    {
        let info = self.region_info();
        check_sides(info.width, info.height)?;
        self.pay_bitmaps(2, work)?;
        let alloc = workspace.alloc.clone()?;
        let mut bitmap = Bitmap::new_with(
            alloc,
            info.width,
            info.height,
            self.initial_pixel(),
            &mut work.steps,
        )?;
        self.decode_into(&mut bitmap, workspace, work)?;
        Ok(DecodedRegion::new(&info, bitmap))
    }
}
