//! The prices of a limit of work, in units (our own rule). Code, contracts and definitions name them. Their table is in
//! docs/FORMAT.md, 12.6: the first sentence of a comment is the name of a row.

/// Each segment of the globals, or of the page before its end.
pub const SEGMENT: u64 = 1024;

/// A number that a segment refers to. The search through what is stored so far costs more.
pub const REFERENCE: u64 = 64;

/// A symbol that a text region or dictionary refers to. It pays for its place on a list, and for its code.
pub const REFERRED_SYMBOL: u64 = 16;

/// An instance of a text region. It pays for ten numbers, and not for the pixels of its symbol.
pub const INSTANCE: u64 = 256;

/// A symbol dictionary. It pays for its contexts.
pub const SYMBOL_DICTIONARY: u64 = 4096;

/// A new symbol that a dictionary states. It pays for five numbers, and not for the symbol's bitmap.
pub const NEW_SYMBOL: u64 = 16;

/// A byte of a custom table. It may hold four lines.
pub const TABLE_BYTE: u64 = 64;

/// A height class. It pays for its numbers, and not for its symbols.
pub const HEIGHT_CLASS: u64 = 256;

/// An export run. It pays for its number.
pub const EXPORT_RUN: u64 = 64;

/// A bitmap. Its words cost more.
pub const BITMAP: u64 = 64;

/// A word of a bitmap. A row has one for each 64 pixels, and at least one.
pub const BITMAP_WORD: u64 = 64;
