//! Tests the texts of the errors, and their conversions.
use jbig2_base::error::{
    DecodeError, FormatError, HuffmanError, OverflowError, ParseError, RegionError, SegmentError,
    SymbolError, TemplateError,
};
use std::alloc::AllocError;

const TEXTS: &[(DecodeError, &str)] = &[
    (
        DecodeError::Parse(ParseError::UnexpectedEof),
        "unexpected end of input",
    ),
    (
        DecodeError::Format(FormatError::InvalidHeader),
        "invalid JBIG2 file header",
    ),
    (
        DecodeError::Format(FormatError::ReservedBits),
        "reserved bits must be zero",
    ),
    (
        DecodeError::Format(FormatError::MissingPageInfo),
        "missing page information segment",
    ),
    (
        DecodeError::Format(FormatError::UnknownPageHeight),
        "page height unknown with no stripe segments",
    ),
    (
        DecodeError::Format(FormatError::EmptyPage),
        "page has zero width or height",
    ),
    (
        DecodeError::Format(FormatError::PageCountMismatch),
        "page count in file header doesn't match",
    ),
    (
        DecodeError::Format(FormatError::InvalidEndOfPage),
        "page without exactly one end of page segment",
    ),
    (
        DecodeError::Segment(SegmentError::UnknownType),
        "unknown or reserved segment type",
    ),
    (
        DecodeError::Segment(SegmentError::InvalidReferredCount),
        "invalid referred-to segment count",
    ),
    (
        DecodeError::Segment(SegmentError::InvalidReference),
        "segment refers to an invalid segment",
    ),
    (
        DecodeError::Segment(SegmentError::InvalidUnknownLength),
        "unknown segment length for this type",
    ),
    (
        DecodeError::Segment(SegmentError::MissingEndMarker),
        "missing end marker for unknown-length region",
    ),
    (
        DecodeError::Segment(SegmentError::MissingPatternDictionary),
        "missing required pattern dictionary",
    ),
    (
        DecodeError::Segment(SegmentError::MissingPageAssociation),
        "segment not associated with a page",
    ),
    (
        DecodeError::Huffman(HuffmanError::InvalidCode),
        "invalid Huffman code",
    ),
    (
        DecodeError::Huffman(HuffmanError::InvalidSelection),
        "invalid Huffman table selection",
    ),
    (
        DecodeError::Huffman(HuffmanError::MissingTables),
        "not enough referred Huffman tables",
    ),
    (
        DecodeError::Huffman(HuffmanError::UnexpectedOob),
        "unexpected out-of-band value",
    ),
    (
        DecodeError::Huffman(HuffmanError::ConflictingCodes),
        "conflicting Huffman codes",
    ),
    (
        DecodeError::Region(RegionError::InvalidCombinationOperator),
        "invalid combination operator",
    ),
    (
        DecodeError::Region(RegionError::InvalidDimension),
        "invalid dimension value",
    ),
    (
        DecodeError::Region(RegionError::InvalidMmrData),
        "invalid MMR-encoded data",
    ),
    (
        DecodeError::Region(RegionError::GrayScaleOutOfRange),
        "gray-scale value exceeds pattern count",
    ),
    (
        DecodeError::Template(TemplateError::Invalid),
        "invalid template value",
    ),
    (
        DecodeError::Template(TemplateError::InvalidAtPixel),
        "invalid adaptive template pixel location",
    ),
    (
        DecodeError::Symbol(SymbolError::NoSymbols),
        "no symbols available",
    ),
    (
        DecodeError::Symbol(SymbolError::TooManySymbols),
        "symbol dictionary contains too many symbols",
    ),
    (
        DecodeError::Symbol(SymbolError::OutOfRange),
        "symbol ID out of range",
    ),
    (
        DecodeError::Symbol(SymbolError::UnexpectedOob),
        "unexpected out-of-band value",
    ),
    (
        DecodeError::Symbol(SymbolError::Invalid),
        "invalid symbol encountered",
    ),
    (
        DecodeError::Symbol(SymbolError::InvalidStripDelta),
        "strip delta overflow",
    ),
    (
        DecodeError::Symbol(SymbolError::TooManyInstances),
        "too many symbol instances",
    ),
    (
        DecodeError::Overflow(OverflowError::BitmapDimension),
        "overflow in bitmap dimension computation",
    ),
    (
        DecodeError::Overflow(OverflowError::GridDimension),
        "overflow in grid dimension computation",
    ),
    (
        DecodeError::Overflow(OverflowError::PlacementCoordinate),
        "overflow in placement coordinate computation",
    ),
    (
        DecodeError::Overflow(OverflowError::ReferenceOffset),
        "overflow in reference offset computation",
    ),
    (
        DecodeError::Overflow(OverflowError::Index),
        "overflow in index computation",
    ),
    (
        DecodeError::Overflow(OverflowError::SymbolCount),
        "too many symbols",
    ),
    (DecodeError::Unsupported, "unsupported feature"),
    (DecodeError::OutOfMemory, "out of memory"),
];

#[test]
fn errors_have_their_texts(rt: HostRuntime) {
    for (error, text) in TEXTS {
        let Ok(printed) = error.to_string(rt.alloc()) else {
            continue;
        };
        assert_eq!(rt; printed.as_str(), *text);
        assert!(rt; error.duplicate() == *error, "{text}");
    }
}

#[test]
fn inner_errors_convert(rt: HostRuntime) {
    let converted = [
        DecodeError::from(ParseError::UnexpectedEof),
        DecodeError::from(FormatError::EmptyPage),
        DecodeError::from(SegmentError::UnknownType),
        DecodeError::from(HuffmanError::InvalidCode),
        DecodeError::from(RegionError::InvalidMmrData),
        DecodeError::from(TemplateError::InvalidAtPixel),
        DecodeError::from(SymbolError::NoSymbols),
        DecodeError::from(OverflowError::SymbolCount),
        DecodeError::from(AllocError),
    ];
    let variants = [
        DecodeError::Parse(ParseError::UnexpectedEof),
        DecodeError::Format(FormatError::EmptyPage),
        DecodeError::Segment(SegmentError::UnknownType),
        DecodeError::Huffman(HuffmanError::InvalidCode),
        DecodeError::Region(RegionError::InvalidMmrData),
        DecodeError::Template(TemplateError::InvalidAtPixel),
        DecodeError::Symbol(SymbolError::NoSymbols),
        DecodeError::Overflow(OverflowError::SymbolCount),
        DecodeError::OutOfMemory,
    ];
    assert!(rt; converted == variants);
}
