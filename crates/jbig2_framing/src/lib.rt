//! The framing of JBIG2 data (ITU-T T.88, 7.2, 7.4.8 and Annex D): file headers, segments and page information.
#![tactic(auto)]

pub mod cut_off;
pub mod file;
pub mod file_header;
pub mod page_info;
pub mod reading;
pub mod segment;
pub mod segment_list;
pub mod sort;
