//! Words that are lent, for one row or one block. Each call reads or writes one word, and counts that.
ghost use Rattle.std.specs.Prelude.{◌≡◌, ◌+◌, ◌<◌, length, slice_index, slice_set};

use jbig2_steps::Steps;
use std::sync::ledger::Ledger;

/// Words that are borrowed for reading, one in each call.
#[derive(Clone, Copy)]
pub struct Words<'a> {
    pub(super) words: &'a [u64],
}

/// Words that are borrowed for reading and writing, one in each call.
#[derive(Drop)]
pub struct WordsMut<'a> {
    pub(super) words: &'a mut [u64],
}

impl<'a> Words<'a> {
    /// The number of words.
    #[inline(always)]
    pub fn len(self) -> usize
        ensures { result ≡ length self.entry.words.now }
    {
        self.words.len()
    }

    /// Word `index`. Counts one load.
    #[inline(always)]
    pub fn load<L: Ledger>(self, index: usize, steps: &mut Steps<L>) -> u64
        requires { index < length self.words.now }
        ensures value { result ≡ slice_index self.entry.words.now index }
        ensures steps { steps.new ≡ record steps.old { loads = steps.old.loads + 1 } }
    {
        steps.load();
        self.words[index]
    }
}

impl<'a> WordsMut<'a> {
    /// Word `index`. Counts one load.
    #[inline(always)]
    pub fn load<L: Ledger>(&self, index: usize, steps: &mut Steps<L>) -> u64
        requires { index < length self.now.words.now }
        ensures value { result ≡ slice_index self.now.words.now index }
        ensures steps { steps.new ≡ record steps.old { loads = steps.old.loads + 1 } }
    {
        steps.load();
        self.words[index]
    }

    /// Replaces word `index`. Counts one word.
    #[inline(always)]
    pub fn write<L: Ledger>(&mut self, index: usize, word: u64, steps: &mut Steps<L>)
        requires { index < length self.old.words.now }
        ensures same_reference { self.new.words.ghost_name ≡ self.old.words.ghost_name }
        ensures value { self.new.words.now ≡ slice_set self.old.words.now index word }
        ensures steps { steps.new ≡ record steps.old { words = steps.old.words + 1 } }
    {
        steps.word();
        self.words[index] = word;
    }
}
