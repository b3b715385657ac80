//! `Decoder`: what a caller implements to get the pixels of a page.
ghost use Rattle.jbig2_page.specs.Calls.{Pixel, Chunk, Line, Conduct, IsCountable, TakesCall};

use jbig2_base::error::Result;

/// Takes the pixels of a page, row by row from the top, each row from the left.
///
/// A Decoder may refuse a call with an error. Decoding returns that error, and makes no further
/// call. For proofs a Decoder has a picture, a count of the calls that it has refused, and the
/// errors that it may refuse calls with. Each accepted call changes the picture; a refused call
/// leaves it as it was.
pub trait Decoder {
    ghost conduct: { Conduct Self };

    /// One pixel.
    fn push_pixel(&mut self, black: bool) -> Result<()>
        requires { IsCountable conduct self.old }
        ensures { TakesCall conduct (Pixel black) result self.old self.new };

    /// `chunk_count` times eight pixels of one colour, from a column that eight divides.
    fn push_pixel_chunk(&mut self, black: bool, chunk_count: u32) -> Result<()>
        requires { IsCountable conduct self.old }
        ensures { TakesCall conduct (Chunk black chunk_count) result self.old self.new };

    /// The row is complete.
    fn next_line(&mut self) -> Result<()>
        requires { IsCountable conduct self.old }
        ensures { TakesCall conduct Line result self.old self.new };
}
