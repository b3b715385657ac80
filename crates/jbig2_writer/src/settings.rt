//! How a bitmap is written: in what, how its region is coded, and which resolution its page states.

use jbig2_region::template::Template;

/// What is written.
#[derive(Clone, Copy, Debug, PartialEq, Eq)]
pub enum Container {
    /// An embedded page, as a PDF file holds it (T.88, D.3).
    EmbeddedPage,
    /// A file of one page, in sequential organisation (T.88, D.1).
    File,
}

/// How the arithmetic coder codes a region (T.88, 6.2.5), with the adaptive pixels where the standard has them by default.
#[derive(Clone, Copy, Debug, PartialEq, Eq)]
pub struct ArithmeticCoding {
    /// Which pixels a context is made from (GBTEMPLATE).
    pub template: Template,
    /// Whether a row that is as the row above it takes one decision alone (typical prediction, TPGDON).
    pub typical: bool,
}

/// How the generic region of a page is coded (T.88, 6.2).
#[derive(Clone, Copy, Debug, PartialEq, Eq)]
pub enum RegionCoding {
    /// By the arithmetic coder (6.2.5).
    Arithmetic(ArithmeticCoding),
    /// As MMR data, by T.6 (6.2.6), with an end of block.
    Mmr,
}

/// In what a bitmap is written, how the generic region of its page is coded, and the resolution of page information
/// (7.4.8).
#[derive(Clone, Copy, Debug, PartialEq, Eq)]
pub struct WriteSettings {
    /// Whether the bytes are an embedded page or a file.
    pub container: Container,
    /// How the pixels are coded.
    pub coding: RegionCoding,
    /// Pixels per metre along a row (7.4.8.3). `None` is unknown, and so is 0.
    pub x_resolution: Option<u32>,
    /// Pixels per metre along a column (7.4.8.4). `None` is unknown, and so is 0.
    pub y_resolution: Option<u32>,
}
