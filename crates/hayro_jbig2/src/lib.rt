//! A decoder of JBIG2 (ITU-T T.88, ISO/IEC 14492), the bi-level format of scanned pages.
//!
//! `Page::new_embedded` reads a page that a PDF file holds, `File::new` a file of pages, and `Jbig2Decoder::new` the
//! first page of what a reader gives. `Page::decode_with` makes the calls on a `Decoder` that draw the page's pixels,
//! `Page::read_image` writes a byte for each pixel, and `Page::draw` lends packed rows.
//!
//! `jbig2_page` does the work. Each call here opens a counter from the caller's limit, lends it to one call there, and
//! records what that call took.
#![tactic(auto)]

mod context;
mod drawn_page;
mod file;
mod globals;
mod jbig2_decoder;
mod jbig2_error;
mod page;
pub mod parts;
pub mod reading;
mod settings;
mod step_count;
mod work_limit;

pub use context::DecoderContext;
pub use drawn_page::DrawnPage;
pub use file::File;
pub use file::pages::Pages;
pub use globals::Globals;
pub use jbig2_base::error::{
    DecodeError, FormatError, HuffmanError, OverflowError, ParseError, RegionError, Result,
    SegmentError, SymbolError, TemplateError,
};
pub use jbig2_decoder::Jbig2Decoder;
pub use jbig2_error::Jbig2Error;
pub use jbig2_framing::cut_off::CutOff;
pub use jbig2_page::laws;
pub use jbig2_page::page::decoder::Decoder;
pub use jbig2_page::passed_over::{PassedOver, PassedSegment};
pub use page::Page;
pub use settings::DecodeSettings;
pub use work_limit::WorkLimit;
