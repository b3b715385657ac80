//! Reads the bits of MMR data, and the codes in them (T.6).
ghost use Rattle.std.specs.Prelude.{◌≡◌, ℕ, ◌+◌, ◌-◌, ◌*◌, ◌/◌, ◌^◌, ◌<◌, ◌≤◌, ◌++◌, List, length, drop, take, min, slice_index, IfSome, IsTrue, if◌then◌else◌};
ghost use Rattle.jbig2_base.specs.Bits.{number_after};
ghost use Rattle.jbig2_mmr.specs.T6.{read_code, run, bits_of, ends_block, is_prefix_free, runs_of};
ghost use Rattle.jbig2_mmr.specs.T6Codes.{modes};
ghost use Rattle.jbig2_base.specs.inner.BitLists.{AreBits};
ghost use Rattle.jbig2_mmr.specs.inner.T6Reading.{with_rest, ReadRun, after_end, padded_bits, IsNearMode};

use crate::mmr::codes::modes::MODES;
use crate::mmr::codes::{Mode, run_entry};
use std::marker::Model;

/// Data and a place in it. The place has a byte and a bit, so that no length overflows.
#[derive(Drop)]
pub struct CodeReader<'a> {
    bytes: &'a [u8],
    byte: usize,
    bit: u32,
}

impl<'a> Model for CodeReader<'a> {
    ghost use Rattle.std.specs.Prelude.{◌≡◌, ◌<◌, ◌≤◌, drop, length};
    ghost use Rattle.jbig2_mmr.specs.T6.{bits_of};
    ghost use Rattle.jbig2_mmr.specs.inner.T6Reading.{Rest};

    ghost Value = { Rest };

    ghost view = { λ r. record {
      bytes = r.bytes.now;
      left = drop r.bit (bits_of (drop r.byte r.bytes.now));
    } };

    ghost invariant = { λ r. (r.byte ≤ length r.bytes.now) × (r.bit < 8) ×
        (r.byte ≡ length r.bytes.now → r.bit ≡ 0) };
}

impl<'a> CodeReader<'a> {
    /// A reader at the first bit of `bytes`.
    pub fn new(bytes: &'a [u8]) -> CodeReader<'a>
        ensures { result ≡ record { bytes = bytes.now; left = bits_of bytes.now } }
    {
        CodeReader {
            bytes,
            byte: 0,
            bit: 0,
        }
    }

    /// How many bytes are read, the last one whole.
    pub fn bytes_used(&self) -> usize
        ensures { result ≡ length self.now.bytes - length self.now.left / 8 }
    {
        if self.bit > 0 {
            self.byte + 1
        } else {
            self.byte
        }
    }

    /// The next 24 bits as a number, with zeros after the end.
    #[inline(always)]
    fn window(&self) -> u32
        ensures value { (n : ℕ) → n ≤ 24 → result / 2 ^ (24 - n) ≡
            number_after 0 (take n (padded_bits self.now.left)) }
        ensures bits { AreBits self.now.left }
        ensures bound { result < 2 ^ 24 }
    {
        (first_word(&self.bytes[self.byte..]) << self.bit) >> 8
    }

    /// How many bits are left, at most 24.
    #[inline(always)]
    fn few(&self) -> u32
        ensures { result ≡ min 24 (length self.now.left) }
    {
        let bytes = self.bytes.len() - self.byte;
        if bytes >= 4 {
            return 24;
        }
        (8 * bytes as u32 - self.bit).min(24)
    }

    /// Moves on by `count` bits.
    #[inline(always)]
    fn skip(&mut self, count: u32)
        requires few { count ≤ 24 }
        requires there { count ≤ length self.old.left }
        ensures { self.new ≡ record self.old { left = drop count self.old.left } }
    {
        let bit = self.bit + count;
        self.byte += (bit / 8) as usize;
        self.bit = bit % 8;
    }

    /// Moves past an end-of-block code, and returns whether there was one.
    pub fn skip_end_of_block(&mut self) -> bool
        ensures value { result ≡ ends_block self.old.left }
        ensures rest { self.new ≡ record self.old { left = after_end self.old.left } }
    {
        if self.few() < 24 || self.window() != 0x001001 {
            return false;
        }
        self.skip(24);
        true
    }

    /// The next mode (T.6, table 1). None if no mode's code begins the bits; then the place stays.
    #[inline(always)]
    pub fn read_mode(&mut self) -> Option<Mode>
        ensures value { with_rest result self.new.left ≡ read_code modes self.old.left }
        ensures bytes { self.new.bytes ≡ self.old.bytes }
        ensures shorter { IfSome result (λ _. length self.new.left < length self.old.left) }
        ensures near { IsNearMode result }
        ensures law { IsTrue (is_prefix_free modes) }
    {
        let entry = MODES[(self.window() >> 17) as usize];
        let size = u32::from(entry % 8);
        if size == 0 || size > self.few() {
            return None;
        }
        self.skip(size);
        let kind = entry / 8;
        if kind > 2 {
            return Some(Mode::Vertical(i32::from(kind) - 6));
        }
        if kind == 2 {
            return Some(Mode::Horizontal);
        }
        Some(Mode::Pass)
    }

    /// The run of the next code of the colour (T.6, tables 2 and 3).
    #[inline(always)]
    fn read_run_code(&mut self, black: bool) -> Option<u16>
        ensures value { with_rest result self.new.left ≡ read_code (runs_of black) self.old.left }
        ensures bytes { self.new.bytes ≡ self.old.bytes }
        ensures shorter { IfSome result (λ _. length self.new.left < length self.old.left) }
        ensures law { IsTrue (is_prefix_free (runs_of black)) }
    {
        let entry = run_entry(black, self.window());
        let size = u32::from(entry % 16);
        if size == 0 || size > self.few() {
            return None;
        }
        self.skip(size);
        Some(entry / 16)
    }

    /// The next run of a colour: make-up codes, then a terminating code. None if it is longer than
    /// `room`, or if no code begins the bits.
    #[inline(always)]
    pub fn read_run(&mut self, black: bool, room: u32) -> Option<u32>
        ensures value { ReadRun (run black self.old.left) room result self.new.left }
        ensures bytes { self.new.bytes ≡ self.old.bytes }
        ensures shorter { IfSome result (λ _. length self.new.left ≤ length self.old.left) }
    {
        let mut sum = 0;
        while let Some(code) = self.read_run_code(black) {
            let part = u32::from(code);
            if part > room - sum {
                return None;
            }
            sum += part;
            if part < 64 {
                return Some(sum);
            }
        }
        None
    }
}

/// The first four bytes as a number, with zeros after the end.
#[inline(always)]
fn first_word(bytes: &[u8]) -> u32
    ensures value { result ≡ slice_index bytes.now 0 * 16777216 +
        (slice_index bytes.now 1 * 65536 + (slice_index bytes.now 2 * 256 +
        slice_index bytes.now 3)) }
    ensures bytes { (slice_index bytes.now 0 < 256) × (slice_index bytes.now 1 < 256) ×
        (slice_index bytes.now 2 < 256) × (slice_index bytes.now 3 < 256) }
{
    if bytes.len() >= 4 {
        return u32::from_be_bytes([bytes[0], bytes[1], bytes[2], bytes[3]]);
    }
    u32::from_be_bytes([
        byte_at(bytes, 0),
        byte_at(bytes, 1),
        byte_at(bytes, 2),
        byte_at(bytes, 3),
    ])
}

/// The byte at `index`; 0 past the end.
#[inline(always)]
fn byte_at(bytes: &[u8], index: usize) -> u8
    ensures { result ≡ slice_index bytes.now index }
{
    if index < bytes.len() { bytes[index] } else { 0 }
}
