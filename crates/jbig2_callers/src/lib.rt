//! Callers of the library, as docs/USING.md shows them.
#![tactic(auto)]

pub mod converter;
pub mod pdf_reader;
pub mod viewer;
