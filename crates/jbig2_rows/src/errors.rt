//! Errors that several rows expect.
use hayro_jbig2::{
    DecodeError, FormatError, HuffmanError, OverflowError, ParseError, RegionError, SegmentError,
};

pub const TOO_EARLY: DecodeError = DecodeError::Parse(ParseError::UnexpectedEof);

pub const NO_PAGE: DecodeError = DecodeError::Format(FormatError::MissingPageInfo);

pub const NO_HEIGHT: DecodeError = DecodeError::Format(FormatError::UnknownPageHeight);

pub const PAGE_COUNT: DecodeError = DecodeError::Format(FormatError::PageCountMismatch);

pub const INVALID_REFERENCE: DecodeError = DecodeError::Segment(SegmentError::InvalidReference);

pub const TOO_LARGE: DecodeError = DecodeError::Overflow(OverflowError::BitmapDimension);

pub const INVALID_OPERATOR: DecodeError = DecodeError::Region(
    RegionError::InvalidCombinationOperator,
);

pub const INVALID_SIZE: DecodeError = DecodeError::Region(RegionError::InvalidDimension);

pub const INVALID_MMR: DecodeError = DecodeError::Region(RegionError::InvalidMmrData);

pub const INVALID_CODE: DecodeError = DecodeError::Huffman(HuffmanError::InvalidCode);

pub const INVALID_SELECTION: DecodeError = DecodeError::Huffman(HuffmanError::InvalidSelection);
