//! The pages of a file, one after the other.
ghost use Rattle.std.specs.Iterator.{UpTo, at_most};
ghost use Rattle.std.specs.Iterator.SizeHint.{IsWithinCount};
ghost use Rattle.std.specs.Map.Iter.{TakesFirst};
ghost use Rattle.std.specs.Prelude.{◌≡◌, IfSome, length};
ghost use Rattle.jbig2_page.specs.Files.{pages_of};

use crate::file::File;
use crate::page::Page;
use std::alloc::Allocator;
use std::marker::Model;
use std::ops::Range;

/// An iterator over the pages of a file, from the first to the last.
#[derive(Drop)]
pub struct Pages<'a, A: Allocator> {
    file: &'a File<'a, A>,
    indices: Range<usize>,
}

/// Definitions see it as the list of the pages that are left.
impl<'a, A: Allocator> Model for Pages<'a, A> {
    ghost use Rattle.std.specs.Prelude.{◌≡◌, ◌≤◌, List, length, map, drop};
    ghost use Rattle.jbig2_page.specs.Files.{page_in};
    ghost use Rattle.jbig2_page.specs.Page.{ReadPage};

    ghost Value = { List ReadPage };

    ghost view = { λ pages. map (page_in pages.file.now)
        (drop pages.indices.start pages.file.now.pages) };

    ghost invariant = { λ pages. (pages.indices.start ≤ pages.indices.end)
        × (pages.indices.end ≡ length pages.file.now.pages) };
}

impl<'a, A: Allocator> Pages<'a, A> {
    pub(crate) fn of_file(file: &'a File<'a, A>) -> Pages<'a, A>
        ensures { result ≡ pages_of file.now }
    {
        Pages {
            file,
            indices: 0..file.page_count(),
        }
    }
}

impl<'a, A: Allocator> Iterator for Pages<'a, A> {
    type Item = Page<'a, A>;

    ghost next_gives = { TakesFirst (λ page. page) };

    ghost remaining = { λ pages. at_most (length pages) };

    fn next(&mut self) -> Option<Page<'a, A>> {
        let index = self.indices.next()?;
        self.file.page(index)
    }

    fn size_hint(&self) -> (usize, Option<usize>)
        ensures lower { IsWithinCount result.0 (at_most (length self.now)) }
        ensures upper { IfSome result.1 (UpTo (at_most (length self.now))) }
        ensures exact { result ≡ (length self.now, Some (length self.now)) }
    {
        let count = self.len();
        (count, Some(count))
    }
}

impl<'a, A: Allocator> ExactSizeIterator for Pages<'a, A> {
    fn len(&self) -> usize {
        self.indices.len()
    }
}
