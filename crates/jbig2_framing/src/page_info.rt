//! Reads page information segments, and finds the size of a page (T.88, 7.4.8 and 7.4.10).
ghost use Rattle.std.specs.Prelude.{◌≡◌, ◌+◌, ◌/◌, ◌%◌, ◌==◌, ◌<◌, ◌≤◌, Ok, IfOk, None, OnErr, OnOk, Option, false, length};
ghost use Rattle.jbig2_base.specs.Grid.{max_side};
ghost use Rattle.jbig2_base.specs.Results.{Returns};
ghost use Rattle.jbig2_base.specs.Bits.{nonzero};
ghost use Rattle.jbig2_base.specs.Causes.{HasCause};
ghost use Rattle.jbig2_framing.specs.Causes.{BreaksInformation, BreaksInitialPageBy};
ghost use Rattle.jbig2_framing.specs.PageInfo.{default_operator_of, flags_of, information_at, is_page_information, is_end_of_stripe, first_information, stripe_height, stripes_height, height_of, initial_page_with, initial_page_by};
ghost use Rattle.jbig2_base.specs.Fields.{Parses};
ghost use Rattle.jbig2_framing.specs.inner.SegmentViews.{segment_view, segment_views};

use crate::segment::{Segment, SegmentType};
use jbig2_base::bitmap::MAX_DIMENSION;
use jbig2_base::bitmap::operator::CombinationOperator;
use jbig2_base::error::{FormatError, OverflowError, Result};
use jbig2_base::field::{byte_field, u16_field, u32_field};
use jbig2_base::reader::Reader;
use std::alloc::Allocator;

/// The fields of a page information segment (T.88, 7.4.8). By default they are 0, no flag is set, and nothing is known.
#[derive(Clone, Copy, Debug)]
pub struct PageInformation {
    /// In pixels.
    pub width: u32,
    /// In pixels; all ones if it is unknown.
    pub height: u32,
    /// In pixels per metre, if it is known.
    pub x_resolution: Option<u32>,
    /// In pixels per metre, if it is known.
    pub y_resolution: Option<u32>,
    pub flags: PageFlags,
    pub striping: PageStriping,
}

/// The flags of a page (T.88, 7.4.8.5).
#[derive(Clone, Copy, Debug)]
pub struct PageFlags {
    pub is_lossless: bool,
    pub might_contain_refinements: bool,
    /// Whether the page begins black.
    pub default_pixel: bool,
    pub default_combination_operator: CombinationOperator,
    pub requires_auxiliary_buffers: bool,
    pub combination_operator_overridden: bool,
    pub might_contain_coloured: bool,
}

/// Whether a page comes in stripes, and how high they may be in pixels (T.88, 7.4.8.6).
#[derive(Clone, Copy, Debug)]
pub struct PageStriping {
    pub is_striped: bool,
    pub max_stripe_size: u16,
}

/// How a page begins: its number, its size in pixels and its colour.
#[derive(Clone, Copy, Debug, PartialEq, Eq)]
pub struct InitialPage {
    pub number: u32,
    pub width: u32,
    pub height: u32,
    /// Whether the page begins black.
    pub default_pixel: bool,
}

impl Default for PageFlags {
    ghost is_default = { λ flags. flags ≡ flags_of 0 };

    fn default() -> PageFlags {
        PageFlags {
            is_lossless: false,
            might_contain_refinements: false,
            default_pixel: false,
            default_combination_operator: CombinationOperator::Or,
            requires_auxiliary_buffers: false,
            combination_operator_overridden: false,
            might_contain_coloured: false,
        }
    }
}

impl Default for PageStriping {
    ghost is_default = { λ striping. striping
        ≡ record { is_striped = false; max_stripe_size = 0 } };

    fn default() -> PageStriping {
        PageStriping {
            is_striped: false,
            max_stripe_size: 0,
        }
    }
}

impl Default for PageInformation {
    ghost is_default = { λ information. information ≡ record {
      width = 0;
      height = 0;
      x_resolution = None;
      y_resolution = None;
      flags = flags_of 0;
      striping = record { is_striped = false; max_stripe_size = 0 };
    } };

    fn default() -> PageInformation {
        PageInformation {
            width: 0,
            height: 0,
            x_resolution: None,
            y_resolution: None,
            flags: PageFlags::default(),
            striping: PageStriping::default(),
        }
    }
}

fn default_operator(bits: u8) -> CombinationOperator
    requires { bits < 4 }
    ensures { result ≡ default_operator_of bits }
{
    match bits {
        0 => CombinationOperator::Or,
        1 => CombinationOperator::And,
        2 => CombinationOperator::Xor,
        _ => CombinationOperator::Xnor,
    }
}

fn page_flags(flags: u8) -> PageFlags
    ensures { result ≡ flags_of flags }
{
    PageFlags {
        is_lossless: flags / 1 % 2 == 1,
        might_contain_refinements: flags / 2 % 2 == 1,
        default_pixel: flags / 4 % 2 == 1,
        default_combination_operator: default_operator(flags / 8 % 4),
        requires_auxiliary_buffers: flags / 32 % 2 == 1,
        combination_operator_overridden: flags / 64 % 2 == 1,
        might_contain_coloured: flags / 128 % 2 == 1,
    }
}

fn page_striping(striping: u16) -> PageStriping
    ensures { result ≡ record {
      is_striped = striping / 32768 == 1;
      max_stripe_size = striping % 32768;
    } }
{
    PageStriping {
        is_striped: striping / 0x8000 == 1,
        max_stripe_size: striping % 0x8000,
    }
}

fn resolution(number: u32) -> Option<u32>
    ensures { result ≡ nonzero number }
{
    if number == 0 { None } else { Some(number) }
}

/// The fields of a page information segment, at the reader's place (T.88, 7.4.8).
///
/// Returns `ParseError::UnexpectedEof` if there are too few bytes, and leaves the reader where it
/// was. Takes no memory.
#[tactic(auto, unfolding(crate::specs::PageInfo::information_at))]
pub fn parse_page_information(reader: &mut Reader<'_>) -> Result<PageInformation>
    ensures causes { HasCause result (BreaksInformation reader.old.bytes) }
    ensures parses { Parses reader.old reader.new result (λ p. p)
        (information_at reader.old.bytes) }
{
    let mut ahead = reader.duplicate();
    let width = u32_field(&mut ahead)?;
    let height = u32_field(&mut ahead)?;
    let x_resolution = u32_field(&mut ahead)?;
    let y_resolution = u32_field(&mut ahead)?;
    let flags = byte_field(&mut ahead)?;
    let striping = u16_field(&mut ahead)?;
    *reader = ahead;
    Ok(PageInformation {
        width,
        height,
        x_resolution: resolution(x_resolution),
        y_resolution: resolution(y_resolution),
        flags: page_flags(flags),
        striping: page_striping(striping),
    })
}

fn is_page_information(kind: SegmentType) -> bool
    ensures { result ≡ is_page_information kind }
{
    matches!(kind, SegmentType::PageInformation)
}

fn is_end_of_stripe(kind: SegmentType) -> bool
    ensures { result ≡ is_end_of_stripe kind }
{
    matches!(kind, SegmentType::EndOfStripe)
}

fn first_information<'s, 'a, A: Allocator>(
    segments: &'s [Segment<'a, A>],
) -> Result<&'s Segment<'a, A>>
    ensures { Returns (λ s. segment_view s.now) result
        (first_information (segment_views segments.now)) }
{
    for segment in segments {
        if is_page_information(segment.header.segment_type) {
            return Ok(segment);
        }
    }
    Err(FormatError::MissingPageInfo.into())
}

fn stripe_height<A: Allocator>(segment: &Segment<'_, A>) -> u32
    ensures { result ≡ stripe_height (segment_view segment.now) }
{
    let bytes = segment.bytes;
    if !is_end_of_stripe(segment.header.segment_type) || bytes.len() != 4 {
        return 0;
    }
    let last_row = u32::from_be_bytes([bytes[0], bytes[1], bytes[2], bytes[3]]);
    if last_row == u32::MAX {
        return 0;
    }
    last_row + 1
}

/// The height of a page that ends with the lowest of these stripes; 0 if none of them states it.
pub fn stripes_height<A: Allocator>(segments: &[Segment<'_, A>]) -> u32
    ensures { result ≡ stripes_height (segment_views segments.now) }
{
    let mut height = 0;
    for segment in segments {
        height = stripe_height(segment).max(height);
    }
    height
}

fn page_height(stated: u32, known_height: u32) -> Result<u32>
    ensures { Returns (λ height. height) result (height_of stated known_height) }
{
    if stated != u32::MAX {
        return Ok(stated);
    }
    if known_height == 0 {
        return Err(FormatError::UnknownPageHeight.into());
    }
    Ok(known_height)
}

fn initial_page_with(number: u32, information: &PageInformation, height: u32) -> Result<InitialPage>
    ensures value { Returns (λ initial_page. initial_page) result
        (initial_page_with number information.now height) }
    ensures fits { IfOk result
        (λ initial_page. (initial_page.width ≤ max_side) × (initial_page.height ≤ max_side)) }
{
    let width = information.width;
    if width == 0 || height == 0 {
        return Err(FormatError::EmptyPage.into());
    }
    if width > MAX_DIMENSION || height > MAX_DIMENSION {
        return Err(OverflowError::BitmapDimension.into());
    }
    Ok(InitialPage {
        number,
        width,
        height,
        default_pixel: information.flags.default_pixel,
    })
}

impl InitialPage {
    /// How a page with these segments begins, by its first page information. `known_height` is the height
    /// where that leaves it open, such as that of the largest end of stripe (T.88, 7.4.8 and 7.4.10);
    /// 0 if nothing states it.
    ///
    /// Returns `FormatError::MissingPageInfo`, `UnknownPageHeight` or `EmptyPage`,
    /// `ParseError::UnexpectedEof` if the segment is too short, or `OverflowError::BitmapDimension`
    /// if a side is above 65535 pixels. Takes no memory.
    pub fn with_height<A: Allocator>(
        segments: &[Segment<'_, A>],
        known_height: u32,
    ) -> Result<InitialPage>
        ensures causes { HasCause result
            (BreaksInitialPageBy known_height (segment_views segments.now)) }
        ensures value { Returns (λ initial_page. initial_page) result
            (initial_page_by known_height (segment_views segments.now)) }
        ensures fits { IfOk result
            (λ initial_page. (initial_page.width ≤ max_side) × (initial_page.height ≤ max_side)) }
    {
        let first = first_information(segments)?;
        let mut reader = Reader::new(first.bytes);
        let information = parse_page_information(&mut reader)?;
        let height = page_height(information.height, known_height)?;
        initial_page_with(first.header.page_association, &information, height)
    }
}
