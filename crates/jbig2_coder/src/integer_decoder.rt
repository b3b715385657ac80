//! Reads integers that are coded with the arithmetic coder (T.88, A.2).

ghost use Rattle.std.specs.Prelude.{◌≡◌, ◌+◌, ◌*◌, ◌^◌, ◌<◌, ◌≤◌, Bool, length, drop, replicate, Ok};
ghost use Rattle.jbig2_base.specs.Results.{Gives};
ghost use Rattle.jbig2_base.specs.Bits.{bit_number, value_of_bits};
ghost use Rattle.jbig2_coder.specs.Coder.{fresh};
ghost use Rattle.jbig2_coder.specs.Integers.{next, read, read_more, prev_of, value_of, integer};
ghost use Rattle.jbig2_coder.specs.inner.IntegerPrefixes.{prefix, range_of};
ghost use Rattle.jbig2_coder.specs.inner.IntegerStates.{ReadsOn, IfRead, prev_next};

use crate::arithmetic_decoder::{ArithmeticDecoder, ArithmeticDecoderContext};
use jbig2_base::error::Result;
use jbig2_steps::Steps;
use std::alloc::Allocator;
use std::marker::Model;
use std::sync::ledger::Ledger;

const CONTEXTS: usize = 512;

/// Reads the integers of one procedure, and keeps their contexts.
#[derive(Drop)]
pub struct IntegerDecoder<A: Allocator> {
    contexts: Vec<ArithmeticDecoderContext, A>,
}

impl<A: Allocator> Model for IntegerDecoder<A> {
    ghost use Rattle.std.specs.Prelude.{◌≡◌, List, length};
    ghost use Rattle.jbig2_coder.specs.Coder.{Context};

    ghost Value = { List Context };

    ghost view = { λ s. s.contexts.items };

    ghost invariant = { λ s. length s.contexts.items ≡ 512 };
}

impl<A: Allocator> IntegerDecoder<A> {
    /// A decoder with fresh contexts.
    ///
    /// # Errors
    /// `OutOfMemory` if there is no memory for the contexts.
    pub fn new(alloc: A) -> Result<IntegerDecoder<A>>
        ensures { Gives (λ contexts. contexts) result (Ok (replicate 512 fresh)) }
    {
        let contexts = vec![in alloc; ArithmeticDecoderContext::new(); CONTEXTS]?;
        Ok(IntegerDecoder { contexts })
    }

    /// The next integer, or `None` if it is out of band.
    pub fn decode<L: Ledger>(
        &mut self,
        decoder: &mut ArithmeticDecoder<'_>,
        steps: &mut Steps<L>,
    ) -> Option<i32>
        ensures value { result ≡ (integer decoder.old.bytes decoder.old.registers self.old).value }
        ensures coder { decoder.new ≡ record decoder.old {
          registers = (integer decoder.old.bytes decoder.old.registers self.old).reading.registers;
        } }
        ensures contexts { self.new
            ≡ (integer decoder.old.bytes decoder.old.registers self.old).reading.contexts }
        ensures steps { steps.new ≡ record steps.old {
          decisions = steps.old.decisions + length
              (integer decoder.old.bytes decoder.old.registers self.old).reading.bits;
        } }
    {
        read_integer(&mut self.contexts, decoder, steps)
    }
}

// How many bits the value has, and the least number of the range (Table A.1).
#[tactic(auto, unfolding(crate::specs::inner::IntegerPrefixes::range_of, crate::specs::Integers::ranges))]
fn range(ones: u32) -> (u32, u32)
    ensures bits { result.0 ≡ (range_of ones).bits }
    ensures offset { result.1 ≡ (range_of ones).offset }
    ensures whole { result.0 ≤ 32 }
{
    match ones {
        0 => (2, 0),
        1 => (4, 4),
        2 => (6, 20),
        3 => (8, 84),
        4 => (12, 340),
        _ => (32, 4436),
    }
}

// PREV after a bit: it keeps a 1 and the last eight bits.
#[inline(always)]
fn following(prev: u32, bit: u32) -> u32
    requires below { prev < 512 }
    requires digit { bit < 2 }
    ensures below { result < 512 }
    ensures value { (b : Bool) → bit ≡ bit_number b → result ≡ prev_next prev b }
{
    let next = 2 * prev + bit;
    if prev < 256 {
        return next;
    }
    256 + next % 256
}

// The value of an integer, from its sign and its sum.
fn signed_value(negative: bool, sum: u32) -> Option<i32>
    ensures { result ≡ value_of negative sum }
{
    if !negative {
        return Some(sum.cast_signed());
    }
    if sum == 0 {
        return None;
    }
    Some(sum.wrapping_neg().cast_signed())
}

// The next bit, in the context with the number `prev`.
#[inline(always)]
fn read_bit<L: Ledger>(
    contexts: &mut [ArithmeticDecoderContext],
    prev: &mut u32,
    decoder: &mut ArithmeticDecoder<'_>,
    steps: &mut Steps<L>,
) -> u32
    requires size { length contexts.old ≡ 512 }
    requires below { prev.old < 512 }
    ensures below { prev.new < 512 }
    ensures bytes { decoder.new.bytes ≡ decoder.old.bytes }
    ensures digit { result < 2 }
    ensures bit { IfRead (λ r. result ≡ bit_number (next prev_of decoder.old.bytes r).symbol)
        prev.old decoder.old contexts.old steps.old }
    ensures reads { ReadsOn (λ r. read prev_of decoder.old.bytes r)
        prev.old decoder.old contexts.old steps.old
        prev.new decoder.new contexts.new steps.new }
{
    let bit = decoder.decode(&mut contexts[*prev as usize], steps);
    *prev = following(*prev, bit);
    bit
}

// How many ones the prefix has, at most five.
fn read_prefix<L: Ledger>(
    contexts: &mut [ArithmeticDecoderContext],
    prev: &mut u32,
    decoder: &mut ArithmeticDecoder<'_>,
    steps: &mut Steps<L>,
) -> u32
    requires size { length contexts.old ≡ 512 }
    requires below { prev.old < 512 }
    ensures below { prev.new < 512 }
    ensures bytes { decoder.new.bytes ≡ decoder.old.bytes }
    ensures ones { IfRead (λ r. result ≡ (prefix 5 0 decoder.old.bytes r).ones)
        prev.old decoder.old contexts.old steps.old }
    ensures reads { ReadsOn (λ r. (prefix 5 0 decoder.old.bytes r).reading)
        prev.old decoder.old contexts.old steps.old
        prev.new decoder.new contexts.new steps.new }
{
    for ones in 0..5 {
        if read_bit(contexts, prev, decoder, steps) == 0 {
            return ones;
        }
    }
    5
}

// The number that the next `count` bits make.
fn read_bits<L: Ledger>(
    count: u32,
    contexts: &mut [ArithmeticDecoderContext],
    prev: &mut u32,
    decoder: &mut ArithmeticDecoder<'_>,
    steps: &mut Steps<L>,
) -> u32
    requires count { count ≤ 32 }
    requires size { length contexts.old ≡ 512 }
    requires below { prev.old < 512 }
    ensures bytes { decoder.new.bytes ≡ decoder.old.bytes }
    ensures value { IfRead (λ r. result
        ≡ value_of_bits (drop (length r.bits) (read_more prev_of count decoder.old.bytes r).bits))
        prev.old decoder.old contexts.old steps.old }
    ensures reads { ReadsOn (λ r. read_more prev_of count decoder.old.bytes r)
        prev.old decoder.old contexts.old steps.old
        prev.new decoder.new contexts.new steps.new }
{
    let mut value = 0;
    for _ in 0..count {
        value = 2 * value + read_bit(contexts, prev, decoder, steps);
    }
    value
}

// An integer: its sign, its prefix and its value.
fn read_integer<L: Ledger>(
    contexts: &mut [ArithmeticDecoderContext],
    decoder: &mut ArithmeticDecoder<'_>,
    steps: &mut Steps<L>,
) -> Option<i32>
    requires { length contexts.old ≡ 512 }
    ensures value { result ≡ (integer decoder.old.bytes decoder.old.registers contexts.old).value }
    ensures coder { decoder.new ≡ record decoder.old {
      registers = (integer decoder.old.bytes decoder.old.registers contexts.old).reading.registers;
    } }
    ensures contexts { contexts.new
        ≡ (integer decoder.old.bytes decoder.old.registers contexts.old).reading.contexts }
    ensures steps { steps.new ≡ record steps.old {
      decisions = steps.old.decisions + length
          (integer decoder.old.bytes decoder.old.registers contexts.old).reading.bits;
    } }
{
    let mut prev = 1;
    let negative = read_bit(contexts, &mut prev, decoder, steps) == 1;
    let ones = read_prefix(contexts, &mut prev, decoder, steps);
    let (bits, offset) = range(ones);
    let value = read_bits(bits, contexts, &mut prev, decoder, steps);
    signed_value(negative, value.wrapping_add(offset))
}
