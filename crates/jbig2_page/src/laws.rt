//! Laws of the definitions that the calls of this crate meet. Each call here does nothing: its contract is the law,
//! which holds for all bytes.
ghost use Rattle.std.specs.Prelude.{◌≡◌, Bool, IsTrue, pos};
ghost use Rattle.jbig2_base.specs.Combination.{combined_grid};
ghost use Rattle.jbig2_base.specs.Grid.{Grid, blank, IsTable};
ghost use Rattle.jbig2_base.specs.declared.bitmap.operator.CombinationOperator.{CombinationOperator};
ghost use Rattle.jbig2_page.specs.Calls.{CallsAreFew, ChunksFit, DrawsGrid, calls_of};
ghost use Rattle.jbig2_page.specs.Causes.{ErrorsAreFromInput};
ghost use Rattle.jbig2_page.specs.Image.{PackedBitsAreBytes};
ghost use Rattle.jbig2_page.specs.Lenient.{CompletePagesAreStrict, LenientReadingAgrees, SalvageAgrees, SalvageRefusesLittle, StrictPassesNothing};
ghost use Rattle.jbig2_page.specs.Order.{EndOfPageEnds, OrderChangesNothing};
ghost use Rattle.jbig2_page.specs.Page.{PagesKeepTheirSize, UntouchedIsBlank, draws_over};

/// Where strict reading accepts, lenient reading gives the same: globals, the beginning of an embedded page and its
/// drawing, the pages of a file and the drawing of each. Lenient reading passes over nothing then.
pub fn lenient_reading_agrees()
    ensures { LenientReadingAgrees }
{}

/// Where lenient reading accepts, salvage gives the same: globals, the beginning of an embedded page and its drawing,
/// the pages of a file and the drawing of each.
pub fn salvage_agrees()
    ensures { SalvageAgrees }
{}

/// Whatever the bytes are, salvage refuses no globals, no file with a header, and no page with a possible width and
/// height, embedded or in a file. Nor does it refuse to draw one of these.
pub fn salvage_refuses_little()
    ensures { SalvageRefusesLittle }
{}

/// Segments with different numbers may have any order in the bytes of an embedded page, or of globals, if both
/// lists of segments end early at the same segment, or neither does.
pub fn order_changes_nothing()
    ensures { OrderChangesNothing }
{}

/// A page that is drawn has the width and the height with which it begins.
pub fn pages_keep_their_size()
    ensures { PagesKeepTheirSize }
{}

/// Strict reading passes over nothing: where it draws a page, it draws each of the page's segments.
pub fn strict_reading_passes_nothing()
    ensures { StrictPassesNothing }
{}

/// Where nothing was passed over of a page's segments, none of which is cut off, strict reading draws the same. So each
/// fault that lenient reading or salvage forgives counts.
pub fn complete_pages_are_strict()
    ensures { CompletePagesAreStrict }
{}

/// Each bit of the packed rows of a page is 1 where the page's byte is 0, and 0 where that is 255.
pub fn packed_bits_are_bytes()
    ensures { PackedBitsAreBytes }
{}

/// What comes after the end of a page, or after the end of a file, changes nothing that is drawn on a page of known
/// size. It may change the size: stripes and page information count wherever they are.
pub fn end_of_page_ends()
    ensures { EndOfPageEnds }
{}

/// Whatever the bytes are, no definition gives `DecodeError::OutOfMemory`, `HuffmanError::ConflictingCodes`,
/// `TemplateError::Invalid` or `OverflowError::Index`. A call returns `OutOfMemory` only in place of what its definition
/// gives.
pub fn errors_are_from_input()
    ensures { ErrorsAreFromInput }
{}

/// The calls of a grid draw it. There is one line call for each row, each row that is drawn has the grid's width, and
/// whoever draws the calls gets the grid's rows, and nothing after the last one.
pub fn calls_draw_the_grid()
    ensures { (g : Grid) → DrawsGrid (calls_of g) g }
{}

/// Each chunk of the calls begins at a column that 8 divides, has at least one byte, and ends within the width.
pub fn chunks_fit()
    ensures { (g : Grid) → ChunksFit g.width 0 (calls_of g) }
{}

/// There is at most one call for each pixel and one for each row.
pub fn calls_are_few()
    ensures { (g : Grid) → CallsAreFew g }
{}

/// A page on which no immediate region was drawn has its default colour.
pub fn untouched_pages_are_blank()
    ensures { UntouchedIsBlank }
{}

/// A region of the page's size at (0, 0) gives its own pixels: under Replace on a page of one colour, under Or or Xor
/// on white, under And or Xnor on black.
pub fn whole_regions_show_themselves()
    ensures { (operator : CombinationOperator) (black : Bool) (region : Grid) →
        IsTable region → IsTrue (draws_over operator black)
        → combined_grid operator (blank region.width region.height black) region
        (pos 0) (pos 0) ≡ region }
{}
