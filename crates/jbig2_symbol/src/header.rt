//! The header of a symbol dictionary (T.88, 7.4.2.1).
ghost use Rattle.std.specs.Prelude.{◌≡◌, ◌/◌, ◌%◌, ◌≤◌, IfOk, OnErr, OnOk};
ghost use Rattle.jbig2_base.specs.Bits.{start_of};
ghost use Rattle.jbig2_base.specs.Results.{Returns};
ghost use Rattle.jbig2_region.specs.inner.PixelArrays.{pixel_array};
ghost use Rattle.jbig2_text.specs.inner.TextViews.{some_pixels};
ghost use Rattle.jbig2_symbol.specs.SymbolHeader.{selection_of, other_selection_of, symbol_flags_of, coded_pixels_at, refined_pixels_at, symbol_header_at, max_new_symbols};
ghost use Rattle.jbig2_symbol.specs.declared.header.HuffmanTableSelection.TheVariants.{TableB2, TableB3, TableB4, TableB5};
ghost use Rattle.jbig2_symbol.specs.inner.HeaderViews.{code_pixels, header_view, refined_pixels};
ghost use Rattle.jbig2_base.specs.Causes.{HasCause};
ghost use Rattle.jbig2_symbol.specs.Causes.{BreaksSymbolHeader};

use jbig2_base::error::{HuffmanError, OverflowError, Result};
use jbig2_base::field::{u16_field, u32_field};
use jbig2_base::reader::Reader;
use jbig2_region::generic::parse_adaptive_template_pixels;
use jbig2_region::generic_refinement;
use jbig2_region::template::{AdaptiveTemplatePixel, RefinementTemplate, Template};
use jbig2_text::pixels_of_template;

/// The most symbols that a dictionary may have, new or exported.
const MAX_SYMBOLS: u32 = 1 << 20;

/// The table of prefix codes for one kind of number (T.88, 7.4.2.1.6).
#[derive(Clone, Copy, Debug, PartialEq, Eq)]
pub enum HuffmanTableSelection {
    TableB1,
    TableB2,
    TableB3,
    TableB4,
    TableB5,
    /// The next one of the tables that the segment refers to.
    UserSupplied,
}

/// How a symbol dictionary is coded (T.88, 7.4.2.1.1).
#[derive(Clone, Copy, Debug)]
pub struct SymbolDictionaryFlags {
    /// Whether prefix codes are used, instead of the arithmetic coder.
    pub use_huffman: bool,
    /// Whether symbols are refined from others, or aggregated from several.
    pub use_refagg: bool,
    pub delta_height_table: HuffmanTableSelection,
    pub delta_width_table: HuffmanTableSelection,
    pub collective_bitmap_size_table: HuffmanTableSelection,
    pub aggregate_instance_table: HuffmanTableSelection,
    /// Whether the contexts begin with those that another dictionary kept.
    pub bitmap_context_used: bool,
    /// Whether the contexts are kept for another dictionary.
    pub bitmap_context_retained: bool,
    pub template: Template,
    pub refinement_template: RefinementTemplate,
}

/// What is needed to decode a symbol dictionary's coded bytes (T.88, 7.4.2.1).
#[derive(Clone, Copy, Debug)]
pub struct SymbolDictionaryHeader<'a> {
    pub flags: SymbolDictionaryFlags,
    /// Has no meaning with prefix codes. Templates 1 to 3 use only the first.
    pub adaptive_template_pixels: [AdaptiveTemplatePixel; 4],
    /// Has no meaning where no symbol is refined, and with refinement template 1.
    pub refinement_at_pixels: [AdaptiveTemplatePixel; 2],
    pub num_exported_symbols: u32,
    pub num_new_symbols: u32,
    /// The coded bytes.
    pub bytes: &'a [u8],
    /// Whether faulty MMR data is refused.
    pub strict: bool,
}

impl SymbolDictionaryHeader<'_> {
    /// The adaptive pixels of symbols' bitmaps: those that the flags say, and (0, 0) for the
    /// others, which no template uses.
    #[tactic(auto, using(crate::proofs::UsedPixels::first_filled, crate::proofs::UsedPixels::four_filled))]
    pub(crate) fn symbol_pixels(&self) -> [AdaptiveTemplatePixel; 4]
        ensures { result ≡ pixel_array 4 (header_view self.now).adaptive_template_pixels }
    {
        let unused = AdaptiveTemplatePixel { x: 0, y: 0 };
        let pixels = &self.adaptive_template_pixels;
        if self.flags.use_huffman {
            return [unused; 4];
        }
        match self.flags.template {
            Template::Template0 => [pixels[0], pixels[1], pixels[2], pixels[3]],
            _ => [pixels[0], unused, unused, unused],
        }
    }

    /// The adaptive pixels of refinements, if there are any.
    pub(crate) fn refinement_pixels(&self) -> Option<[AdaptiveTemplatePixel; 2]>
        ensures { some_pixels result ≡ (header_view self.now).refinement_at_pixels }
    {
        if self.flags.use_refagg {
            let template = self.flags.refinement_template;
            return pixels_of_template(template, self.refinement_at_pixels);
        }
        None
    }
}

/// The table of the height differences, by bits 2 and 3 of the flags.
fn height_selection(number: u16) -> Result<HuffmanTableSelection>
    requires { number ≤ 3 }
    ensures { Returns (λ selection. selection) result (selection_of TableB4 TableB5 number) }
{
    match number {
        0 => Ok(HuffmanTableSelection::TableB4),
        1 => Ok(HuffmanTableSelection::TableB5),
        3 => Ok(HuffmanTableSelection::UserSupplied),
        _ => Err(HuffmanError::InvalidSelection.into()),
    }
}

/// The table of the width differences, by bits 4 and 5 of the flags.
fn width_selection(number: u16) -> Result<HuffmanTableSelection>
    requires { number ≤ 3 }
    ensures { Returns (λ selection. selection) result (selection_of TableB2 TableB3 number) }
{
    match number {
        0 => Ok(HuffmanTableSelection::TableB2),
        1 => Ok(HuffmanTableSelection::TableB3),
        3 => Ok(HuffmanTableSelection::UserSupplied),
        _ => Err(HuffmanError::InvalidSelection.into()),
    }
}

/// The table of sizes, or of instance counts, by a bit of the flags.
fn other_selection(user_supplied: bool) -> HuffmanTableSelection
    ensures { result ≡ other_selection_of user_supplied }
{
    if user_supplied {
        return HuffmanTableSelection::UserSupplied;
    }
    HuffmanTableSelection::TableB1
}

#[tactic(auto, unfolding(crate::specs::SymbolHeader::symbol_flags_of))]
fn symbol_flags(flags: u16) -> Result<SymbolDictionaryFlags>
    ensures { Returns (λ f. f) result (symbol_flags_of flags) }
{
    let delta_height_table = height_selection(flags / 4 % 4)?;
    let delta_width_table = width_selection(flags / 16 % 4)?;
    Ok(SymbolDictionaryFlags {
        use_huffman: flags % 2 == 1,
        use_refagg: flags / 2 % 2 == 1,
        delta_height_table,
        delta_width_table,
        collective_bitmap_size_table: other_selection(flags / 64 % 2 == 1),
        aggregate_instance_table: other_selection(flags / 128 % 2 == 1),
        bitmap_context_used: flags / 256 % 2 == 1,
        bitmap_context_retained: flags / 512 % 2 == 1,
        template: Template::from_byte((flags / 1024 % 4) as u8),
        refinement_template: RefinementTemplate::from_byte((flags / 4096 % 2) as u8),
    })
}

/// Reads the adaptive pixels of the symbols' bitmaps. With prefix codes there are none.
fn parse_coded_pixels(
    reader: &mut Reader<'_>,
    flags: &SymbolDictionaryFlags,
) -> Result<[AdaptiveTemplatePixel; 4]>
    ensures value { let meant = coded_pixels_at flags.now reader.old.bytes in
        Returns (λ pixels. (code_pixels flags.now pixels, reader.new.bytes)) result meant }
    ensures unused { IfOk result
        (λ pixels. pixels ≡ pixel_array 4 (code_pixels flags.now pixels)) }
{
    if flags.use_huffman {
        return Ok([AdaptiveTemplatePixel { x: 0, y: 0 }; 4]);
    }
    parse_adaptive_template_pixels(reader, flags.template)
}

/// Reads the adaptive pixels of refinements, where symbols are refined.
fn parse_refined_pixels(
    reader: &mut Reader<'_>,
    flags: &SymbolDictionaryFlags,
) -> Result<[AdaptiveTemplatePixel; 2]>
    ensures value { let meant = refined_pixels_at flags.now reader.old.bytes in
        Returns (λ pixels. (refined_pixels flags.now pixels, reader.new.bytes)) result meant }
    ensures unused { IfOk result
        (λ pixels. pixels ≡ pixel_array 2 (refined_pixels flags.now pixels)) }
{
    if !flags.use_refagg {
        return Ok([AdaptiveTemplatePixel { x: 0, y: 0 }; 2]);
    }
    generic_refinement::parse_template_pixels(reader, flags.refinement_template)
}

/// Reads the header of a symbol dictionary (T.88, 7.4.2.1). The reader is then at the coded bytes,
/// which the header holds too.
///
/// Returns `ParseError::UnexpectedEof` where the bytes do not hold the header;
/// `HuffmanError::InvalidSelection` where the flags name no table for heights or widths, also
/// without prefix codes; `TemplateError::InvalidAtPixel` where an adaptive pixel does not come
/// before the pixel that is decoded; `OverflowError::SymbolCount` for more than 2^20 symbols, new
/// or exported. An error leaves the reader where it was. It takes no memory.
#[tactic(auto, using(crate::proofs::Causes::symbol_header_cause), unfolding(crate::specs::SymbolHeader::symbol_header_at))]
pub fn parse<'a>(reader: &mut Reader<'a>, strict: bool) -> Result<SymbolDictionaryHeader<'a>>
    ensures value { let meant = symbol_header_at strict reader.old.bytes in
        Returns (λ h. (header_view h, reader.new.bytes)) result meant }
    ensures exported { IfOk result (λ h. h.num_exported_symbols ≤ max_new_symbols) }
    ensures fresh { IfOk result (λ h. h.num_new_symbols ≤ max_new_symbols) }
    ensures unused { IfOk result (λ h. h.adaptive_template_pixels
        ≡ pixel_array 4 (header_view h).adaptive_template_pixels) }
    ensures unrefined { IfOk result (λ h. h.refinement_at_pixels
        ≡ pixel_array 2 (header_view h).refinement_at_pixels) }
    ensures place { OnOk result (reader.new ≡ start_of reader.new.bytes) }
    ensures stays { OnErr result (reader.new ≡ reader.old) }
    ensures causes { HasCause result (BreaksSymbolHeader reader.old.bytes) }
{
    let mut ahead = reader.duplicate();
    let flags = symbol_flags(u16_field(&mut ahead)?)?;
    let adaptive_template_pixels = parse_coded_pixels(&mut ahead, &flags)?;
    let refinement_at_pixels = parse_refined_pixels(&mut ahead, &flags)?;
    let num_exported_symbols = u32_field(&mut ahead)?;
    let num_new_symbols = u32_field(&mut ahead)?;
    if num_exported_symbols > MAX_SYMBOLS || num_new_symbols > MAX_SYMBOLS {
        return Err(OverflowError::SymbolCount.into());
    }
    let bytes = ahead.tail();
    *reader = ahead;
    Ok(SymbolDictionaryHeader {
        flags,
        adaptive_template_pixels,
        refinement_at_pixels,
        num_exported_symbols,
        num_new_symbols,
        bytes,
        strict,
    })
}
