//! The inverses of the codings of JBIG2 (ITU-T T.88). Each call here does nothing: its contract is a law over the
//! definitions of writing and reading, and it holds for all values.
#![tactic(auto)]

ghost use Rattle.jbig2_inverses.specs.MmrWriter.{BitmapsAreShort, BitmapsReadBack};
ghost use Rattle.jbig2_inverses.specs.CoderStates.{CodedDataIsShort};
ghost use Rattle.jbig2_inverses.specs.FileWriter.{FilesReadBack};
ghost use Rattle.jbig2_inverses.specs.GenericSegmentWriter.{GenericSegmentsReadBack};
ghost use Rattle.jbig2_inverses.specs.IntegerWriter.{IntegersReadBack, SymbolIdsReadBack};
ghost use Rattle.jbig2_inverses.specs.PrefixWriter.{PrefixCodesReadBack};
ghost use Rattle.jbig2_inverses.specs.RegionWriter.{GenericRegionsReadBack, RegionsReadBack};
ghost use Rattle.jbig2_inverses.specs.MmrRowWriter.{RowsReadBack};
ghost use Rattle.jbig2_inverses.specs.SegmentWriter.{PageInformationReadsBack, SegmentsReadBack};
ghost use Rattle.jbig2_inverses.specs.SequenceWriter.{SequencesReadBack};

/// Prefix codes (Annex B) are read back. Take any lines that B.3 accepts, one of them, and range bits for it. From its
/// code and these bits the line's number is read, or out of band, whatever bits come after them. No line's code begins
/// the code of another line.
pub fn prefix_codes_read_back()
    ensures { PrefixCodesReadBack }
{}

/// Integers (Annex A.2) are read back: every number of signed 32 bits, and out of band. Wherever the coder's next
/// decisions are those that stand for the number, in the contexts that PREV names, the number is read. And it is read
/// from the bytes of the encoder of E.2, whatever decisions are coded before and after it, in whatever contexts.
pub fn integers_read_back()
    ensures { IntegersReadBack }
{}

/// Symbol ids (Annex A.3) of each code length are read back: every number below 2 to the code length. The decisions
/// before and after it may be any, as with integers.
pub fn symbol_ids_read_back()
    ensures { SymbolIdsReadBack }
{}

/// Integers and symbol ids are read back in any sequence. Take any list of them, each integer with its procedure. The
/// encoder of E.2 gives bytes for their decisions, where each procedure has contexts of its own. From these bytes the
/// procedures, asked in turn, read the list. All contexts are fresh at first.
pub fn sequences_read_back()
    ensures { SequencesReadBack }
{}

/// The data of the encoder of E.2 is short: at most six bits in bytes of seven for each decision on average, and 40 bits
/// more. So a segment can state the length of any bitmap with sides up to 65535.
pub fn coded_data_is_short()
    ensures { CodedDataIsShort }
{}

/// Rows of T.6, which T.88 calls MMR, are read back: each row of each width, under each row above it. From the modes
/// and runs that T.6's coding procedure chooses for the row, its pixels are read, with white outside of it, and the
/// bits after it are left.
pub fn rows_read_back()
    ensures { RowsReadBack }
{}

/// Bitmaps by MMR (T.88, 6.2.6) are read back: each bitmap that has pixels, from the bytes of its rows, with an end of
/// block or without, in strict and in lenient mode. All of the bytes are used.
pub fn bitmaps_read_back()
    ensures { BitmapsReadBack }
{}

/// Bitmaps by MMR are short: at most seven bits for each pixel, and 60 for each row. So a segment can state the length
/// of any bitmap with sides up to 65535.
pub fn bitmaps_are_short()
    ensures { BitmapsAreShort }
{}

/// Regions that the arithmetic coder codes pixel by pixel (T.88, 6.2.5 and 6.3.5) are read back, however their contexts
/// and the colours that need no decision are found. Wherever the coder's next decisions are those of the region's
/// raster, with typical prediction or without, its pixels are read.
pub fn regions_read_back()
    ensures { RegionsReadBack }
{}

/// Each bitmap is a generic region (T.88, 6.2): by each template with any adaptive pixels, with typical prediction and
/// without, from the encoder's bytes of its decisions; and by MMR, if it has pixels.
pub fn generic_regions_read_back()
    ensures { GenericRegionsReadBack }
{}

/// The data of a generic region segment (T.88, 7.4.1 and 7.4.6) is read back: region information, flags, adaptive
/// pixels and coded bytes, of each header that a segment of known length can have.
pub fn generic_segments_read_back()
    ensures { GenericSegmentsReadBack }
{}

/// Segments one after the other, as in files (T.88, D.1) and embedded pages (D.3), are read back in each mode: segments of
/// known length that refer to none. Only the last one may be an end of file.
pub fn segments_read_back()
    ensures { SegmentsReadBack }
{}

/// Page information (T.88, 7.4.8) is read back.
pub fn page_information_reads_back()
    ensures { PageInformationReadsBack }
{}

/// Files in sequential organisation (T.88, D.1 and D.4) are read back in each mode: each file header, and segments after
/// it. The segments are sorted.
pub fn files_read_back()
    ensures { FilesReadBack }
{}
