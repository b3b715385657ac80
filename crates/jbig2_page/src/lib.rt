//! Reads and draws the pages of JBIG2 data (T.88, 7 and 8): the segments of a page, of a file and of globals, what they
//! keep for later ones, and the regions that they draw. Each call that draws or decodes takes the caller's counter. No
//! call here can make one, since `crates.txt` doesn't list `jbig2_permit` for this crate. So what is counted here is
//! counted in the counter that the caller lends.
#![tactic(auto)]

pub mod drawing;
pub mod file;
pub mod globals;
mod kept;
pub mod laws;
mod other_segments;
pub mod packed;
pub mod page;
pub mod passed_over;
mod region;
mod row_places;
mod segment_price;
mod workspace;
