//! The errors of the decoder: the rule that the bytes break, or that memory ran out.
ghost use Rattle.std.specs.Prelude.{◌≡◌};
ghost use Rattle.jbig2_base.specs.declared.error.DecodeError.TheVariants.{Parse, Format, Segment, Huffman, Region, Template, Symbol, Overflow, OutOfMemory};

use std::alloc::{AllocError, AllocFailed};
use thiserror::Error;

/// The result of a call of this decoder: a value, or the first rule that the bytes break.
pub type Result<T> = std::result::Result<T, DecodeError>;

/// Why a page could not be decoded. The inner enums say which rule the bytes break.
#[derive(Debug, Drop, PartialEq, Eq, Error)]
pub enum DecodeError {
    /// The bytes end too early.
    Parse(ParseError),
    /// A fault in the file or the page as a whole.
    Format(FormatError),
    /// A fault in a segment's header or its references.
    Segment(SegmentError),
    /// A fault in prefix-coded data.
    Huffman(HuffmanError),
    /// A fault in a region's fields or data.
    Region(RegionError),
    /// A fault in a template's adaptive pixels.
    Template(TemplateError),
    /// A fault in symbol dictionaries or text.
    Symbol(SymbolError),
    /// A number out of range.
    Overflow(OverflowError),
    /// A feature that this decoder does not have.
    Unsupported,
    /// A request for memory was refused. Every mode returns this error.
    OutOfMemory,
}

/// The faults of a read of bytes.
#[derive(Clone, Copy, Debug, PartialEq, Eq, Error)]
pub enum ParseError {
    /// The bytes end before the field does.
    UnexpectedEof,
}

/// The faults of a file or a page as a whole.
#[derive(Clone, Copy, Debug, PartialEq, Eq, Error)]
pub enum FormatError {
    /// The file does not begin with the identification string (D.4.1).
    InvalidHeader,
    /// A reserved bit of the file's flags is set (D.4.2).
    ReservedBits,
    /// The page has no segment of type 48.
    MissingPageInfo,
    /// The height is unknown, and no stripe states it (7.4.8.2).
    UnknownPageHeight,
    /// The page's width or height is 0.
    EmptyPage,
    /// The file's page count is not the number of its pages (D.4.3).
    PageCountMismatch,
    /// A page has no end of page segment, or several (7.4.9).
    InvalidEndOfPage,
}

/// The faults of a segment.
#[derive(Clone, Copy, Debug, PartialEq, Eq, Error)]
pub enum SegmentError {
    /// The type is not in the list of 7.3.
    UnknownType,
    /// The count of referred segments is coded as 5 or 6 (7.2.4).
    InvalidReferredCount,
    /// A referred number is not below the segment's own, or refers to no segment that can be used.
    InvalidReference,
    /// Only an immediate generic region may have an unknown length (7.2.7).
    InvalidUnknownLength,
    /// The data of unknown length has no end marker (7.2.7).
    MissingEndMarker,
    /// A halftone region refers to no pattern dictionary.
    MissingPatternDictionary,
    /// A segment that needs a page is associated with page 0.
    MissingPageAssociation,
}

/// The faults of prefix-coded data.
#[derive(Clone, Copy, Debug, PartialEq, Eq, Error)]
pub enum HuffmanError {
    /// The bits begin with no code, or the lengths make no code (Annex B).
    InvalidCode,
    /// A table selection has a value that has no meaning.
    InvalidSelection,
    /// More custom tables are selected than are referred to.
    MissingTables,
    /// Out of band where a number must be.
    UnexpectedOob,
    /// Two lines have one code; never returned.
    ConflictingCodes,
}

/// The faults of a region.
#[derive(Clone, Copy, Debug, PartialEq, Eq, Error)]
pub enum RegionError {
    /// The operator is not in the list of 7.4.1.5.
    InvalidCombinationOperator,
    /// A row count or a size does not fit the region.
    InvalidDimension,
    /// The T.6 data has a fault or lacks a row.
    InvalidMmrData,
    /// There is no pattern for a gray value.
    GrayScaleOutOfRange,
}

/// The faults of a template.
#[derive(Clone, Copy, Debug, PartialEq, Eq, Error)]
pub enum TemplateError {
    /// There is no such template; never returned.
    Invalid,
    /// An adaptive pixel lies at or after the pixel that is decoded.
    InvalidAtPixel,
}

/// The faults of symbols.
#[derive(Clone, Copy, Debug, PartialEq, Eq, Error)]
pub enum SymbolError {
    /// The number of exported symbols is not the stated one.
    NoSymbols,
    /// More new symbols than stated.
    TooManySymbols,
    /// There is no symbol of a number, or a run goes past the end.
    OutOfRange,
    /// Out of band where a number must be.
    UnexpectedOob,
    /// A symbol dictionary breaks a rule that has no error of its own.
    Invalid,
    /// A strip's delta T does not fit.
    InvalidStripDelta,
    /// More symbol instances than the data can hold.
    TooManyInstances,
}

/// The numbers outside the range that this decoder keeps.
#[derive(Clone, Copy, Debug, PartialEq, Eq, Error)]
pub enum OverflowError {
    /// A bitmap's width or height, or their product, is too large.
    BitmapDimension,
    /// A halftone grid's width or height is too large.
    GridDimension,
    /// A symbol's place does not fit.
    PlacementCoordinate,
    /// A reference's offset does not fit.
    ReferenceOffset,
    /// An index does not fit; never returned.
    Index,
    /// More symbols than a dictionary may have.
    SymbolCount,
}

impl From<ParseError> for DecodeError {
    ghost from_gives = { λ inner error. error ≡ Parse inner };

    fn from(inner: ParseError) -> DecodeError {
        DecodeError::Parse(inner)
    }
}

impl From<FormatError> for DecodeError {
    ghost from_gives = { λ inner error. error ≡ Format inner };

    fn from(inner: FormatError) -> DecodeError {
        DecodeError::Format(inner)
    }
}

impl From<SegmentError> for DecodeError {
    ghost from_gives = { λ inner error. error ≡ Segment inner };

    fn from(inner: SegmentError) -> DecodeError {
        DecodeError::Segment(inner)
    }
}

impl From<HuffmanError> for DecodeError {
    ghost from_gives = { λ inner error. error ≡ Huffman inner };

    fn from(inner: HuffmanError) -> DecodeError {
        DecodeError::Huffman(inner)
    }
}

impl From<RegionError> for DecodeError {
    ghost from_gives = { λ inner error. error ≡ Region inner };

    fn from(inner: RegionError) -> DecodeError {
        DecodeError::Region(inner)
    }
}

impl From<TemplateError> for DecodeError {
    ghost from_gives = { λ inner error. error ≡ Template inner };

    fn from(inner: TemplateError) -> DecodeError {
        DecodeError::Template(inner)
    }
}

impl From<SymbolError> for DecodeError {
    ghost from_gives = { λ inner error. error ≡ Symbol inner };

    fn from(inner: SymbolError) -> DecodeError {
        DecodeError::Symbol(inner)
    }
}

impl From<OverflowError> for DecodeError {
    ghost from_gives = { λ inner error. error ≡ Overflow inner };

    fn from(inner: OverflowError) -> DecodeError {
        DecodeError::Overflow(inner)
    }
}

impl From<AllocError> for DecodeError {
    ghost from_gives = { λ _ error. error ≡ OutOfMemory };

    fn from(_refusal: AllocError) -> DecodeError {
        DecodeError::OutOfMemory
    }
}

impl<T: Drop> From<AllocFailed<T>> for DecodeError {
    ghost from_gives = { λ _ error. error ≡ OutOfMemory };

    fn from(_refusal: AllocFailed<T>) -> DecodeError {
        DecodeError::OutOfMemory
    }
}

impl DecodeError {
    /// A copy of this error. Takes no memory.
    pub fn duplicate(&self) -> DecodeError
        ensures { result ≡ self.now }
    {
        match self {
            DecodeError::Parse(inner) => DecodeError::Parse(*inner),
            DecodeError::Format(inner) => DecodeError::Format(*inner),
            DecodeError::Segment(inner) => DecodeError::Segment(*inner),
            DecodeError::Huffman(inner) => DecodeError::Huffman(*inner),
            DecodeError::Region(inner) => DecodeError::Region(*inner),
            DecodeError::Template(inner) => DecodeError::Template(*inner),
            DecodeError::Symbol(inner) => DecodeError::Symbol(*inner),
            DecodeError::Overflow(inner) => DecodeError::Overflow(*inner),
            DecodeError::Unsupported => DecodeError::Unsupported,
            DecodeError::OutOfMemory => DecodeError::OutOfMemory,
        }
    }
}
