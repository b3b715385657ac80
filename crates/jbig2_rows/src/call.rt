//! The calls of a Decoder, as the rows list them.

/// One call of a Decoder.
#[derive(Clone, Copy, Debug, PartialEq, Eq)]
pub enum Call {
    /// `push_pixel` of this colour.
    Pixel(bool),
    /// `push_pixel_chunk` of this colour and count.
    Chunk(bool, u32),
    /// `next_line`.
    Line,
}

/// `push_pixel` of a black pixel.
pub const INK: Call = Call::Pixel(true);

/// `push_pixel` of a white pixel.
pub const PAPER: Call = Call::Pixel(false);

/// `next_line`.
pub const LINE: Call = Call::Line;

/// One row of eight white pixels.
pub const WHITE: &[Call] = &[Call::Chunk(false, 1), LINE];

/// Two rows of eight white pixels.
pub const WHITE_TWICE: &[Call] = &[Call::Chunk(false, 1), LINE, Call::Chunk(false, 1), LINE];

/// One row of eight black pixels.
pub const BLACK: &[Call] = &[Call::Chunk(true, 1), LINE];

/// One row of a black pixel and seven white ones.
pub const DOT: &[Call] = &[INK, PAPER, PAPER, PAPER, PAPER, PAPER, PAPER, PAPER, LINE];
