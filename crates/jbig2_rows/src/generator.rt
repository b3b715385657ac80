//! Lists of decisions that look random.
ghost use Rattle.std.specs.Prelude.{◌≡◌, ◌/◌, ◌^◌, ◌<◌, IfOk};
ghost use Rattle.jbig2_rows.specs.Generator.{after, entry_after, list_after};

use std::alloc::{AllocError, Allocator};

/// Numbers below 2^31 that look random. Each is computed from the one before.
#[derive(Clone, Copy)]
pub struct Generator {
    state: u32,
}

impl Generator {
    /// A generator with the seed 1.
    pub fn new() -> Generator
        ensures { result.state ≡ 1 }
    {
        Generator { state: 1 }
    }

    /// The high fifteen bits of the next number.
    fn draw(&mut self) -> u32
        ensures state { self.new.state ≡ after self.old.state }
        ensures value { result ≡ self.new.state / 2 ^ 16 }
    {
        let next = (u64::from(self.state) * 1_103_515_245 + 12_345) % 0x8000_0000;
        self.state = next as u32;
        self.state / 0x1_0000
    }

    /// A decision, with the number of its context.
    #[tactic(auto, unfolding(crate::specs::Generator::entry_after))]
    fn entry(&mut self) -> (u16, bool)
        ensures state { self.new.state ≡ after (after self.old.state) }
        ensures value { result ≡ entry_after self.old.state }
    {
        let context = self.draw() % 16;
        let decision = self.draw() % 256 < 17 * context;
        (context as u16, decision)
    }

    /// A list of `count` decisions.
    pub fn list<A: Allocator>(
        &mut self,
        alloc: A,
        count: usize,
    ) -> Result<Vec<(u16, bool), A>, AllocError>
        ensures { IfOk result (λ list. list.items ≡ list_after count self.old.state) }
    {
        let mut list = Vec::new(alloc);
        for _ in 0..count {
            list.push(self.entry())?;
        }
        Ok(list)
    }
}
