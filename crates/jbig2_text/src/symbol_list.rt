//! The symbols to which the instances' ids refer (T.88, 6.4.10).
ghost use Rattle.std.specs.Prelude.{◌≡◌, option_map};
ghost use Rattle.jbig2_text.specs.Text.{symbol_of};
ghost use Rattle.jbig2_text.specs.inner.TextViews.{list_view};

use jbig2_base::bitmap::Bitmap;
use std::alloc::Allocator;

/// Symbols; a symbol's id is its index. First come those of other dictionaries, then the new ones
/// of the dictionary that is being decoded. A text region has no new ones.
#[derive(Drop)]
pub struct SymbolList<'a, A: Allocator> {
    pub input_symbols: &'a [&'a Bitmap<A>],
    pub new_symbols: &'a [Bitmap<A>],
}

impl<'a, A: Allocator> SymbolList<'a, A> {
    /// The symbol of an id, if it has one.
    pub fn symbol(&self, id: i64) -> Option<&'a Bitmap<A>>
        ensures { option_map (λ s. s.now) result ≡ symbol_of (list_view self.now) id }
    {
        let Ok(index) = usize::try_from(id) else {
            return None;
        };
        if index < self.input_symbols.len() {
            return Some(self.input_symbols[index]);
        }
        self.new_symbols.get(index - self.input_symbols.len())
    }
}
