//! The patterns of a dictionary.
ghost use Rattle.std.specs.List.{All};
ghost use Rattle.std.specs.Prelude.{◌≤◌, length};
ghost use Rattle.jbig2_base.specs.Grid.{max_side};
ghost use Rattle.jbig2_halftone.specs.Patterns.{HasSize};

use jbig2_base::bitmap::Bitmap;
use std::alloc::Allocator;

/// Patterns of one size, one for each gray value.
#[derive(Drop)]
pub struct PatternDictionary<A: Allocator> {
    /// Pattern `k` is drawn for gray value `k`.
    pub patterns: Vec<Bitmap<A>, A>,
    /// In pixels.
    pub pattern_width: u32,
    /// In pixels.
    pub pattern_height: u32,
    ghost some: { 1 ≤ length patterns.items },
    ghost sized: { All (HasSize pattern_width pattern_height) patterns.items },
    ghost few: { length patterns.items ≤ max_side },
}
