//! The base of every layer of the JBIG2 decoder (ITU-T T.88): errors, a reader of bits, and packed bitmaps.
#![tactic(auto)]

pub mod bitmap;
pub mod error;
mod error_text;
pub mod field;
pub mod reader;
