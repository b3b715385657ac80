//! A Decoder that compares the calls with those of a row.
ghost use Rattle.std.specs.Prelude.{◌≡◌, ◌+◌, ◌-◌, ◌^◌, ◌<◌, IfErr, OnOk, OnErr};

use crate::call::Call;
use hayro_jbig2::{DecodeError, Decoder, Result};

/// Compares the calls that it takes with the expected ones, call by call. It takes no memory.
#[derive(Drop)]
pub struct Watcher<'c> {
    awaited: &'c [Call],
    differs: bool,
    has_taken: bool,
    /// How many calls it takes before it refuses one; `None` where it refuses none.
    patience: Option<usize>,
    /// The error that it refuses calls with.
    refusal: DecodeError,
    refusals: u64,
}

impl<'c> Watcher<'c> {
    /// Takes every call.
    pub fn new(expected: &'c [Call]) -> Watcher<'c>
        ensures { result.refusals ≡ 0 }
    {
        Watcher {
            awaited: expected,
            differs: false,
            has_taken: false,
            patience: None,
            refusal: DecodeError::Unsupported,
            refusals: 0,
        }
    }

    /// Takes this many calls and refuses the others with this error.
    pub fn with_patience(expected: &'c [Call], patience: usize, refusal: DecodeError) -> Watcher<'c>
        ensures { result.refusals ≡ 0 }
    {
        Watcher {
            awaited: expected,
            differs: false,
            has_taken: false,
            patience: Some(patience),
            refusal,
            refusals: 0,
        }
    }

    /// Whether it took exactly the expected calls.
    pub fn is_satisfied(&self) -> bool {
        !self.differs && self.awaited.is_empty()
    }

    /// Whether it took any call.
    pub fn has_taken(&self) -> bool {
        self.has_taken
    }

    /// How many calls it refused.
    pub fn refusals(&self) -> u64
        ensures { result ≡ self.now.refusals }
    {
        self.refusals
    }

    fn take(&mut self, call: Call)
        ensures refusal { self.new.refusal ≡ self.old.refusal }
        ensures refusals { self.new.refusals ≡ self.old.refusals }
    {
        self.has_taken = true;
        match self.awaited {
            [first, others @ ..] => {
                self.differs = self.differs || *first != call;
                self.awaited = others;
            }
            [] => self.differs = true,
        }
    }

    fn answer(&mut self, call: Call) -> Result<()>
        requires { self.old.refusals < 2 ^ 64 - 1 }
        ensures ok { OnOk result (self.new.refusals ≡ self.old.refusals) }
        ensures err { OnErr result (self.new.refusals ≡ self.old.refusals + 1) }
        ensures refusal { self.new.refusal ≡ self.old.refusal }
        ensures error { IfErr result (λ error. error ≡ self.old.refusal) }
    {
        match self.patience {
            None => {}
            Some(0) => {
                self.refusals += 1;
                return Err(self.refusal.duplicate());
            }
            Some(count) => self.patience = Some(count - 1),
        }
        self.take(call);
        Ok(())
    }
}

impl<'c> Decoder for Watcher<'c> {
    ghost use Rattle.jbig2_base.specs.declared.error.DecodeError.{DecodeError};

    // The error that it refuses with stays the same in all calls.
    ghost conduct = { record {
      Picture = DecodeError;
      picture = λ watcher. watcher.refusal;
      step = λ error _. error;
      refuses = λ own _ error. error ≡ own;
      refusals = λ watcher. watcher.refusals;
    } };

    fn push_pixel(&mut self, black: bool) -> Result<()> {
        self.answer(Call::Pixel(black))
    }

    fn push_pixel_chunk(&mut self, black: bool, chunk_count: u32) -> Result<()> {
        self.answer(Call::Chunk(black, chunk_count))
    }

    fn next_line(&mut self) -> Result<()> {
        self.answer(Call::Line)
    }
}
