//! Writes bits into bytes, and codes as bits.
ghost use Rattle.std.specs.Prelude.{◌≡◌, ◌+◌, ◌/◌, ◌%◌, ◌^◌, ◌<◌, ◌≤◌, ◌++◌, [], length, IfOk, OnOk};
ghost use Rattle.jbig2_inverses.specs.MmrWriter.{packed};
ghost use Rattle.jbig2_inverses.specs.Digits.{digits};
ghost use Rattle.jbig2_mmr_writer.specs.inner.Entries.{word_of_entry};

use std::alloc::{AllocError, Allocator};
use std::marker::Model;

/// Packs bits into bytes, high bit first.
#[derive(Drop)]
pub struct BitWriter<A: Allocator> {
    bytes: Vec<u8, A>,
    /// The bits that do not fill a byte yet, as a number.
    rest: u32,
    /// How many these are, 7 at most.
    count: u32,
}

impl<A: Allocator> Model for BitWriter<A> {
    ghost use Rattle.std.specs.Prelude.{ℕ, All, List, ◌++◌, ◌^◌, ◌<◌};
    ghost use Rattle.jbig2_inverses.specs.Digits.{digits};
    ghost use Rattle.jbig2_mmr.specs.T6.{bits_of};

    ghost Value = { List ℕ };

    ghost view = { λ s. bits_of s.bytes.items ++ digits s.count s.rest };

    ghost invariant = { λ s. (s.count < 8) × (s.rest < 2 ^ s.count)
        × All (λ byte. byte < 256) s.bytes.items };
}

impl<A: Allocator> BitWriter<A> {
    /// A writer that has no bit yet.
    pub fn new(alloc: A) -> Self
        ensures { result ≡ [] }
    {
        BitWriter {
            bytes: Vec::new(alloc),
            rest: 0,
            count: 0,
        }
    }

    /// Adds the lowest `count` bits of a number, high bit first.
    ///
    /// Fails if memory is refused. Then bits are lost.
    pub fn push(&mut self, bits: u32, count: u32) -> Result<(), AllocError>
        requires few { count ≤ 24 }
        requires small { bits < 2 ^ count }
        ensures { OnOk result (self.new ≡ self.old ++ digits count bits) }
    {
        let mut rest = (self.rest << count) + bits;
        let mut left = self.count + count;
        while left >= 8 {
            left -= 8;
            self.bytes.push((rest >> left) as u8)?;
            rest %= 1 << left;
        }
        self.rest = rest;
        self.count = left;
        Ok(())
    }

    /// Adds the code word that an entry states.
    #[inline(always)]
    pub fn push_entry(&mut self, entry: u16) -> Result<(), AllocError>
        requires { entry / 16 < 2 ^ (entry % 16) }
        ensures { OnOk result (self.new ≡ self.old ++ word_of_entry entry) }
    {
        self.push(u32::from(entry / 16), u32::from(entry % 16))
    }

    /// The bits in bytes. Zeros fill the last one.
    pub fn finish(self) -> Result<Vec<u8, A>, AllocError>
        ensures { IfOk result (λ v. v.items ≡ packed ((length self + 7) / 8) self) }
    {
        let BitWriter {
            mut bytes,
            rest,
            count,
        } = self;
        if count == 0 {
            return Ok(bytes);
        }
        bytes.push((rest << (8 - count)) as u8)?;
        Ok(bytes)
    }
}
