//! The modules of the decoder's lower crates, for callers that decode parts of a page themselves.
pub use jbig2_base::{bitmap, error, reader};
pub use jbig2_coder::{arithmetic_decoder, huffman_table, integer_decoder, mq, symbol_id_decoder};
pub use jbig2_framing::{file, page_info, reading, segment};
pub use jbig2_halftone::{gray_scale, halftone, pattern};
pub use jbig2_mmr::mmr;
pub use jbig2_region::{decoded_region, generic, generic_refinement, region_info, template};
pub use jbig2_steps as steps;
pub use jbig2_symbol as symbol;
pub use jbig2_text as text;
