//! The arithmetic decoder (T.88, Annexes E and G).

ghost use Rattle.std.specs.Prelude.{◌≡◌, ℕ, ◌+◌, ◌-◌, ◌*◌, ◌/◌, ◌^◌, ◌<◌, ◌≤◌, not, true, false, max, if◌then◌else◌, Ok};
ghost use Rattle.jbig2_base.specs.Results.{Gives};
ghost use Rattle.jbig2_base.specs.Bits.{bit_number};
ghost use Rattle.jbig2_coder.specs.QeTable.{qe_row};
ghost use Rattle.jbig2_coder.specs.Coder.{fresh, fresh_contexts, byte_at, byte_in, renormd, initial_registers, choice, is_within, likely_next, unlikely_next, decision, all_quiet};
ghost use Rattle.jbig2_coder.specs.inner.States.{Does};

use crate::arithmetic_decoder::qe_table::{State, state_at};
use crate::arithmetic_decoder::registers::{BufferedRegisters, CodeBuffer, byte_at, byte_in};
use jbig2_base::error::Result;
use jbig2_steps::Steps;
use std::alloc::Allocator;
use std::marker::Model;
use std::sync::ledger::Ledger;

pub mod qe_table;
pub mod registers;

/// The state of one context: a row of the table of probabilities, and the more likely symbol. Both
/// are kept in one byte: twice the row, plus the symbol.
#[derive(Clone, Copy)]
pub struct ArithmeticDecoderContext {
    pub(crate) state: u8,
}

/// The choice of a decision that isn't quiet: the symbol, the size of its part of the interval, and
/// how much lies below that part.
#[derive(Clone, Copy)]
struct Part {
    symbol: bool,
    size: u32,
    below: u32,
}

impl Model for ArithmeticDecoderContext {
    ghost use Rattle.std.specs.Prelude.{◌<◌};
    ghost use Rattle.jbig2_coder.specs.Coder.{Context};
    ghost use Rattle.jbig2_coder.specs.inner.States.{context_in_state, state_of};
    ghost use Rattle.std.proofs.Common.{◌≡◌, ◌%◌, ⊎_elim, arith};
    ghost use Rattle.std.proofs.lemmas.Bool.{cases_eq, eq-eqb, ne_eqb};

    ghost Value = { Context };

    ghost view = { λ s. context_in_state s.state };

    ghost invariant = { λ s. s.state < 94 };

    ghost inverse = { λ v. record { state = state_of v } };

    ghost inverse_ok = { λ s h i.
        let back : state_of (context_in_state s.state) ≡ s.state =
        ⊎_elim (λ (one : s.state % 2 ≡ 1). rw (eq-eqb (s.state % 2) 1 one) (omega arith))
        (λ (other : s.state % 2 ≡ 1 → ⊥). rw (ne_eqb (s.state % 2) 1 other) (omega arith))
        (cases_eq (s.state % 2) 1) in
        record { state = back i } };
}

impl Default for ArithmeticDecoderContext {
    fn default() -> Self
        ensures { result ≡ fresh }
    {
        ArithmeticDecoderContext::new()
    }
}

impl ArithmeticDecoderContext {
    /// A fresh context: row 0, with 0 as the likely symbol.
    #[inline(always)]
    pub fn new() -> Self
        ensures { result ≡ fresh }
    {
        ArithmeticDecoderContext { state: 0 }
    }

    /// The more likely symbol in this context.
    #[inline(always)]
    pub fn likely_symbol(&self) -> bool
        ensures { result ≡ self.now.likely }
    {
        self.state % 2 == 1
    }

    /// Returns the likely symbol, and moves the context to the next row for it (NMPS of Table E.1).
    #[inline(always)]
    pub(crate) fn after_likely(&mut self) -> bool
        ensures context { self.new ≡ likely_next self.old }
        ensures symbol { result ≡ self.old.likely }
    {
        let symbol = self.likely_symbol();
        self.state = state_at(self.state).likely;
        symbol
    }

    /// Returns the unlikely symbol, and moves the context to the next row for it (NLPS and SWITCH
    /// of Table E.1).
    #[inline(always)]
    pub(crate) fn after_unlikely(&mut self) -> bool
        ensures context { self.new ≡ unlikely_next self.old }
        ensures symbol { result ≡ not self.old.likely }
    {
        let symbol = !self.likely_symbol();
        self.state = state_at(self.state).unlikely;
        symbol
    }

    /// Chooses the symbol of a decision that isn't quiet, and its part of the interval (MPS_EXCHANGE
    /// and LPS_EXCHANGE, E.3.2). `state` is the data of the context's state, `rest` is what the less
    /// likely symbol leaves of A, and `high` is the upper half of C.
    #[inline(always)]
    fn exchange(&mut self, state: State, rest: u32, high: u32) -> Part
        requires normal { 0x8000 ≤ rest + state.qe }
        requires below { rest + state.qe < 0x10000 }
        requires renorm { high < rest → rest < 0x8000 }
        requires does { Does state self.old }
        ensures choice { (c : ℕ) → c < 2 ^ 32 → c / 2 ^ 16 ≡ high →
            choice self.old (rest + state.qe) c
            ≡ record {
              symbol = result.symbol;
              a = result.size;
              c = c - result.below * 2 ^ 16;
              context = self.new;
              renorm = true;
            } }
        ensures within { result.below ≤ high }
        ensures some { 1 ≤ result.size }
        ensures half { result.size < 0x8000 }
    {
        // Which of the two symbols it is can hardly be predicted, so no jump depends on it.
        let is_lower = high >= rest;
        let is_unlikely = is_lower != (rest < state.qe);
        let below = if is_lower { rest } else { 0 };
        let size = if is_lower { state.qe } else { rest };
        let symbol = (state.likely % 2 == 1) ^ is_unlikely;
        self.state = if is_unlikely {
            state.unlikely
        } else {
            state.likely
        };
        Part {
            symbol,
            size,
            below,
        }
    }
}

/// Makes `contexts` 2 to the power of `bits` fresh contexts.
pub fn fresh_contexts<A: Allocator>(
    contexts: &mut Vec<ArithmeticDecoderContext, A>,
    bits: u32,
) -> Result<()>
    requires { bits ≤ 16 }
    ensures { Gives (λ _. contexts.new.items) result (Ok (fresh_contexts bits)) }
{
    contexts.clear();
    contexts.resize(1 << bits, ArithmeticDecoderContext::new())?;
    Ok(())
}

/// The least value of A after a quiet decision, by the upper half of the code register C.
#[inline(always)]
fn floor_above(high: u32) -> u32
    requires { high < 2 ^ 16 }
    ensures { result ≡ max (high + 1) 0x8000 }
{
    (high + 1).max(0x8000)
}

/// How often `total` fits in `room`, but at most `most` times.
#[inline(always)]
fn whole_groups(room: u32, total: u32, most: u32) -> u32
    requires some { 1 ≤ total }
    requires fits { total * most < 2 ^ 32 }
    ensures most { result ≤ most }
    ensures within { total * result ≤ room }
    ensures last { result < most → room < total * (result + 1) }
{
    if room >= total * most {
        return most;
    }
    room / total
}

/// Reads the decisions that an arithmetic coder wrote into a slice. Past the end of the slice every
/// byte is FF.
#[derive(Drop)]
pub struct ArithmeticDecoder<'a> {
    bytes: &'a [u8],
    registers: BufferedRegisters,
    /// The least value of A after a quiet decision. It changes only with C, so it is kept.
    floor: u32,
}

impl<'a> Model for ArithmeticDecoder<'a> {
    ghost use Rattle.jbig2_coder.specs.Coder.{Coder};
    ghost use Rattle.jbig2_coder.specs.inner.Ahead.{IsKept, seen_registers};

    ghost Value = { Coder };

    ghost view = { λ s. record { bytes = s.bytes.now; registers = seen_registers s.registers } };

    ghost invariant = { λ s. IsKept s.bytes.now s.registers s.floor };
}

impl<'a> ArithmeticDecoder<'a> {
    #[tactic(auto, unfolding(crate::specs::Coder::initial_registers))]
    /// A decoder at the start of `bytes` (INITDEC, Figure G.1).
    pub fn new(bytes: &'a [u8]) -> Self
        ensures bytes { result.bytes ≡ bytes.now }
        ensures registers { result.registers ≡ initial_registers bytes.now }
    {
        let first = u32::from(!byte_at(bytes, 0)) << 16;
        let code = byte_in(bytes, first, 0);
        let c = u64::from(code.c << 7) << 32;
        ArithmeticDecoder {
            bytes,
            registers: BufferedRegisters {
                a: 0x8000,
                code: CodeBuffer {
                    c,
                    bits: code.ct - 7,
                    place: code.place,
                },
            },
            floor: floor_above((c >> 48) as u32),
        }
    }

    /// Whether the byte that was read last is one of the data, and not an FF at its end. Bytes that are
    /// read ahead don't count.
    pub fn is_within_data(&self) -> bool
        ensures { result ≡ is_within self.now.bytes self.now.registers }
    {
        let code = self.registers.code;
        let place = code.place.saturating_sub((code.bits / 8) as usize);
        place + 1 < self.bytes.len() || byte_at(self.bytes, place) != 0xFF
    }

    /// The next decision in `context`, 0 or 1 (DECODE, Figure G.2). It changes `context`.
    #[inline(always)]
    pub fn decode<L: Ledger>(
        &mut self,
        context: &mut ArithmeticDecoderContext,
        steps: &mut Steps<L>,
    ) -> u32
        ensures value { result
            ≡ bit_number (decision self.old.bytes self.old.registers context.old).symbol }
        ensures coder { self.new ≡ record self.old {
          registers = (decision self.old.bytes self.old.registers context.old).registers;
        } }
        ensures context { context.new
            ≡ (decision self.old.bytes self.old.registers context.old).context }
        ensures digit { result < 2 }
        ensures steps { steps.new ≡ record steps.old { decisions = steps.old.decisions + 1 } }
    {
        steps.decision();
        // Read once: as far as the compiler knows, the write to A can change the context.
        let index = context.state;
        let state = state_at(index);
        let rest = self.registers.a - state.qe;
        if rest >= self.floor {
            self.registers.a = rest;
            return u32::from(index % 2);
        }
        u32::from(self.decode_renormalized(context, state, rest))
    }

    /// A decision that isn't quiet, once the context's state and what is left of A are known. It is
    /// a function of its own, so that loops of decisions stay small.
    #[inline(never)]
    fn decode_renormalized(
        &mut self,
        context: &mut ArithmeticDecoderContext,
        state: State,
        rest: u32,
    ) -> bool
        requires renorm { self.old.registers.code.c / 2 ^ 16 < rest → rest < 0x8000 }
        requires does { Does state context.old }
        requires rest { self.old.registers.a ≡ rest + state.qe }
        ensures value { result
            ≡ (decision self.old.bytes self.old.registers context.old).symbol }
        ensures coder { self.new ≡ record self.old {
          registers = (decision self.old.bytes self.old.registers context.old).registers;
        } }
        ensures context { context.new
            ≡ (decision self.old.bytes self.old.registers context.old).context }
    {
        let high = self.registers.code.upper_half();
        let part = context.exchange(state, rest, high);
        self.registers.narrow(part.size, part.below);
        self.registers.renormalize(self.bytes);
        self.floor = floor_above(self.registers.code.upper_half());
        part.symbol
    }

    /// Whether the next `count` decisions in `context` are all the likely symbol, each without a
    /// renormalization. If so, they are taken. If not, nothing changes.
    #[inline(always)]
    pub fn decode_mps_run<L: Ledger>(
        &mut self,
        context: &ArithmeticDecoderContext,
        count: u32,
        steps: &mut Steps<L>,
    ) -> bool
        requires some { 1 ≤ count }
        requires few { count ≤ 65535 }
        ensures exact { result ≡ all_quiet count self.old.bytes self.old.registers context.now }
        ensures coder { self.new ≡ (if result
            then record self.old {
              registers = record self.old.registers {
                a = self.old.registers.a - count * (qe_row context.now.row).qe;
              };
            }
            else self.old) }
        ensures steps { steps.new ≡ record steps.old { run_tests = steps.old.run_tests + 1 } }
    {
        steps.run_test();
        let total = state_at(context.state).qe * count;
        if self.registers.a < self.floor + total {
            return false;
        }
        self.registers.a -= total;
        true
    }

    /// How many groups of `count` decisions in `context`, at most `most`, are all the likely
    /// symbol, each decision without a renormalization. They are taken. Each group counts as a test
    /// for a run, and a call that takes none counts as one.
    #[inline(always)]
    pub fn decode_mps_runs<L: Ledger>(
        &mut self,
        context: &ArithmeticDecoderContext,
        count: u32,
        most: u32,
        steps: &mut Steps<L>,
    ) -> u32
        requires some { 1 ≤ count }
        requires group { 1 ≤ most }
        requires few { count * most ≤ 65535 }
        ensures most { result ≤ most }
        ensures quiet { all_quiet (count * result) self.old.bytes self.old.registers context.now
            ≡ true }
        ensures last { result < most
            → all_quiet (count * (result + 1)) self.old.bytes self.old.registers context.now
            ≡ false }
        ensures coder { self.new ≡ record self.old {
          registers = record self.old.registers {
            a = self.old.registers.a - count * result * (qe_row context.now.row).qe;
          };
        } }
        ensures steps { steps.new
            ≡ record steps.old { run_tests = steps.old.run_tests + max result 1 } }
    {
        let total = state_at(context.state).qe * count;
        let room = self.registers.a.saturating_sub(self.floor);
        let groups = whole_groups(room, total, most);
        for _ in 0..groups.max(1) {
            steps.run_test();
        }
        self.registers.a -= total * groups;
        groups
    }
}
