//! The worked rows, and lists for the arithmetic coder: what `jbig2-bench` and `jbig2-row` check
//! the decoder with.
#![tactic(auto)]

pub mod answer;
pub mod call;
pub mod case;
mod coder;
mod combination;
pub mod drawing;
mod errors;
mod file_case;
pub mod generator;
mod lists;
mod mmr;
pub mod one_row;
mod patterns;
mod piece;
pub mod program;
mod rows;
mod salvage;
pub mod spelling;
pub mod status;
mod table;
pub mod watcher;
