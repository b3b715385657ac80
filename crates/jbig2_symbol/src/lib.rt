//! Symbol dictionaries (T.88, 6.5 and 7.4.2): decodes the new symbols and gives the exported ones.
#![tactic(auto)]

pub mod aggregates;
pub mod classes;
pub mod coded;
pub mod collective;
pub mod contexts;
mod decoding;
pub mod dictionary;
pub mod exports;
pub mod header;
pub mod input;
pub mod laws;
pub mod prefixed;
pub mod readings;
pub mod tables;
pub mod widths;

pub use crate::decoding::decode;
pub use crate::dictionary::{RetainedContexts, SymbolDictionary};
pub use crate::header::{
    HuffmanTableSelection, SymbolDictionaryFlags, SymbolDictionaryHeader, parse,
};
