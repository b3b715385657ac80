//! How many calls a Decoder of this program has refused.
ghost use Rattle.std.specs.Prelude.{◌≡◌, ◌-◌, ◌^◌, ◌<◌, nat_lt};
ghost use Rattle.jbig2_program.specs.inner.Printing.{CountsRefusal};

use hayro_jbig2::{DecodeError, Result};

/// The count of refused calls: those whose output could not be written.
#[derive(Drop)]
pub struct Refusals {
    pub count: u64,
}

impl Refusals {
    pub fn new() -> Refusals
        ensures { result.count ≡ 0 }
    {
        Refusals { count: 0 }
    }

    pub fn any(&self) -> bool
        ensures { result ≡ nat_lt 0 self.now.count }
    {
        self.count > 0
    }

    /// The result of a call, by whether its line was taken.
    pub fn answer(&mut self, is_taken: bool) -> Result<()>
        requires { self.old.count < 2 ^ 64 - 1 }
        ensures { CountsRefusal is_taken result self.old.count self.new.count }
    {
        if !is_taken {
            self.count += 1;
            return Err(DecodeError::Unsupported);
        }
        Ok(())
    }
}
