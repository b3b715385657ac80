//! Writes a bitmap as an embedded page of JBIG2 (ITU-T T.88), or as a file of one page: page information, and one
//! immediate generic region of the page's size. By proof the definitions of a page and of a file read each bitmap back
//! as it was.
#![tactic(auto)]

mod container;
mod decisions;
mod error;
mod packed;
mod page;
mod segments;
mod settings;
mod windows;

pub use error::WriteError;
pub use page::{write_packed, write_page};
pub use settings::{ArithmeticCoding, Container, RegionCoding, WriteSettings};
