//! What `jbig2-decode` does for its words: writes the pages of a file, the calls that draw a page, or a bitmap to an
//! output, and faults to standard error.
#![tactic(auto)]

mod bitmap;
mod calls;
mod fault;
mod output;
mod pages;
mod printer;
mod program;
mod refusals;
mod request;
mod run_end;

pub use program::{run, run_reported};
pub use request::file_word;
pub use run_end::RunEnd;
