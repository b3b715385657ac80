//! Text regions (T.88, 6.4 and 7.4.3): reads the instances of symbols and draws them.
#![tactic(auto)]

pub(crate) mod coded;
mod coordinates;
pub(crate) mod cursor;
mod decoding;
pub mod header;
pub(crate) mod instances;
pub(crate) mod params;
pub(crate) mod placement;
pub(crate) mod prefixed;
pub(crate) mod readings;
pub(crate) mod refined;
pub(crate) mod refining;
mod strips;
mod symbol_bitmap;
mod symbol_codes;
pub(crate) mod symbol_list;
pub(crate) mod symbols;
pub(crate) mod tables;
mod whole;

pub use crate::coded::CodedReadings;
pub use crate::decoding::{decode, decode_into};
pub use crate::header::parse;
pub use crate::instances::draw_instances_by;
pub use crate::params::TextParams;
pub use crate::prefixed::PrefixedReadings;
pub use crate::readings::ReadInstances;
pub use crate::refining::{Refining, pixels_of_template};
pub use crate::symbol_bitmap::new_symbol;
pub use crate::symbol_list::SymbolList;
pub use crate::tables::TextRegionHuffmanTables;
pub use crate::whole::whole_instances;
