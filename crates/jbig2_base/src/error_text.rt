//! The text of each error.
ghost use Rattle.std.specs.Prelude.{Some};
ghost use Rattle.jbig2_base.specs.ErrorTexts.{error_text, parse_text, format_text, segment_text, huffman_text, region_text, template_text, symbol_text, overflow_text};

use crate::error::{
    DecodeError, FormatError, HuffmanError, OverflowError, ParseError, RegionError, SegmentError,
    SymbolError, TemplateError,
};
use std::fmt;

impl fmt::Display for DecodeError {
    ghost output = { λ error. Some (error_text error) };

    fn fmt<W: fmt::Write>(&self, f: &mut fmt::Formatter<W>) -> fmt::Result {
        match self {
            DecodeError::Parse(inner) => fmt::Display::fmt(inner, f),
            DecodeError::Format(inner) => fmt::Display::fmt(inner, f),
            DecodeError::Segment(inner) => fmt::Display::fmt(inner, f),
            DecodeError::Huffman(inner) => fmt::Display::fmt(inner, f),
            DecodeError::Region(inner) => fmt::Display::fmt(inner, f),
            DecodeError::Template(inner) => fmt::Display::fmt(inner, f),
            DecodeError::Symbol(inner) => fmt::Display::fmt(inner, f),
            DecodeError::Overflow(inner) => fmt::Display::fmt(inner, f),
            DecodeError::Unsupported => f.write_str("unsupported feature"),
            DecodeError::OutOfMemory => f.write_str("out of memory"),
        }
    }
}

impl fmt::Display for ParseError {
    ghost output = { λ error. Some (parse_text error) };

    fn fmt<W: fmt::Write>(&self, f: &mut fmt::Formatter<W>) -> fmt::Result {
        match self {
            ParseError::UnexpectedEof => f.write_str("unexpected end of input"),
        }
    }
}

impl fmt::Display for FormatError {
    ghost output = { λ error. Some (format_text error) };

    fn fmt<W: fmt::Write>(&self, f: &mut fmt::Formatter<W>) -> fmt::Result {
        match self {
            FormatError::InvalidHeader => f.write_str("invalid JBIG2 file header"),
            FormatError::ReservedBits => f.write_str("reserved bits must be zero"),
            FormatError::MissingPageInfo => f.write_str("missing page information segment"),
            FormatError::UnknownPageHeight => f.write_str(
                "page height unknown with no stripe segments",
            ),
            FormatError::EmptyPage => f.write_str("page has zero width or height"),
            FormatError::PageCountMismatch => f.write_str(
                "page count in file header doesn't match",
            ),
            FormatError::InvalidEndOfPage => f.write_str(
                "page without exactly one end of page segment",
            ),
        }
    }
}

impl fmt::Display for SegmentError {
    ghost output = { λ error. Some (segment_text error) };

    fn fmt<W: fmt::Write>(&self, f: &mut fmt::Formatter<W>) -> fmt::Result {
        match self {
            SegmentError::UnknownType => f.write_str("unknown or reserved segment type"),
            SegmentError::InvalidReferredCount => f.write_str("invalid referred-to segment count"),
            SegmentError::InvalidReference => f.write_str("segment refers to an invalid segment"),
            SegmentError::InvalidUnknownLength => f.write_str(
                "unknown segment length for this type",
            ),
            SegmentError::MissingEndMarker => f.write_str(
                "missing end marker for unknown-length region",
            ),
            SegmentError::MissingPatternDictionary => f.write_str(
                "missing required pattern dictionary",
            ),
            SegmentError::MissingPageAssociation => f.write_str(
                "segment not associated with a page",
            ),
        }
    }
}

impl fmt::Display for HuffmanError {
    ghost output = { λ error. Some (huffman_text error) };

    fn fmt<W: fmt::Write>(&self, f: &mut fmt::Formatter<W>) -> fmt::Result {
        match self {
            HuffmanError::InvalidCode => f.write_str("invalid Huffman code"),
            HuffmanError::InvalidSelection => f.write_str("invalid Huffman table selection"),
            HuffmanError::MissingTables => f.write_str("not enough referred Huffman tables"),
            HuffmanError::UnexpectedOob => f.write_str("unexpected out-of-band value"),
            HuffmanError::ConflictingCodes => f.write_str("conflicting Huffman codes"),
        }
    }
}

impl fmt::Display for RegionError {
    ghost output = { λ error. Some (region_text error) };

    fn fmt<W: fmt::Write>(&self, f: &mut fmt::Formatter<W>) -> fmt::Result {
        match self {
            RegionError::InvalidCombinationOperator => f.write_str("invalid combination operator"),
            RegionError::InvalidDimension => f.write_str("invalid dimension value"),
            RegionError::InvalidMmrData => f.write_str("invalid MMR-encoded data"),
            RegionError::GrayScaleOutOfRange => f.write_str(
                "gray-scale value exceeds pattern count",
            ),
        }
    }
}

impl fmt::Display for TemplateError {
    ghost output = { λ error. Some (template_text error) };

    fn fmt<W: fmt::Write>(&self, f: &mut fmt::Formatter<W>) -> fmt::Result {
        match self {
            TemplateError::Invalid => f.write_str("invalid template value"),
            TemplateError::InvalidAtPixel => f.write_str(
                "invalid adaptive template pixel location",
            ),
        }
    }
}

impl fmt::Display for SymbolError {
    ghost output = { λ error. Some (symbol_text error) };

    fn fmt<W: fmt::Write>(&self, f: &mut fmt::Formatter<W>) -> fmt::Result {
        match self {
            SymbolError::NoSymbols => f.write_str("no symbols available"),
            SymbolError::TooManySymbols => f.write_str(
                "symbol dictionary contains too many symbols",
            ),
            SymbolError::OutOfRange => f.write_str("symbol ID out of range"),
            SymbolError::UnexpectedOob => f.write_str("unexpected out-of-band value"),
            SymbolError::Invalid => f.write_str("invalid symbol encountered"),
            SymbolError::InvalidStripDelta => f.write_str("strip delta overflow"),
            SymbolError::TooManyInstances => f.write_str("too many symbol instances"),
        }
    }
}

impl fmt::Display for OverflowError {
    ghost output = { λ error. Some (overflow_text error) };

    fn fmt<W: fmt::Write>(&self, f: &mut fmt::Formatter<W>) -> fmt::Result {
        match self {
            OverflowError::BitmapDimension => f.write_str(
                "overflow in bitmap dimension computation",
            ),
            OverflowError::GridDimension => f.write_str("overflow in grid dimension computation"),
            OverflowError::PlacementCoordinate => f.write_str(
                "overflow in placement coordinate computation",
            ),
            OverflowError::ReferenceOffset => f.write_str(
                "overflow in reference offset computation",
            ),
            OverflowError::Index => f.write_str("overflow in index computation"),
            OverflowError::SymbolCount => f.write_str("too many symbols"),
        }
    }
}
