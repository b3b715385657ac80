//! The arithmetic encoder (T.88, E.2).

ghost use Rattle.std.specs.Prelude.{◌≡◌, ℕ, ◌+◌, ◌-◌, ◌*◌, ◌/◌, ◌%◌, ◌^◌, ◌<◌, ◌≤◌, ◌∷◌, [], reverse, vec_len, IfOk, IfErr, OnOk, Ok, MatchOption, drop};
ghost use Rattle.std.specs.Bool.{OnFalse, OnTrue};
ghost use Rattle.jbig2_base.specs.Results.{Gives};
ghost use Rattle.jbig2_base.specs.declared.error.DecodeError.TheVariants.{OutOfMemory};
ghost use Rattle.jbig2_coder.specs.Encoder.{initial_coding, eight_bits_out, seven_bits_out, byte_out, shift_once, renorme, narrowed_interval, encoding, set_bits, flush_coder, is_full, with_marker};
ghost use Rattle.jbig2_coder.specs.inner.EncoderViews.{writer_of, encoder_state, shifted_registers, HasRoom};

use crate::arithmetic_decoder::ArithmeticDecoderContext;
use crate::arithmetic_decoder::qe_table::state_at;
use jbig2_base::error::Result;
use std::alloc::Allocator;
use std::marker::Model;

/// The code register C, and the shifts until the next byte goes out (CT).
#[derive(Clone, Copy)]
pub struct CodeRegister {
    pub c: u32,
    pub ct: u32,
}

/// The interval register A, and the code register.
#[derive(Clone, Copy)]
pub struct Registers {
    pub a: u32,
    pub code: CodeRegister,
}

/// The lowest value of C that has a carry into the byte before.
const CARRY: u32 = 0x800_0000;

/// Writes the top eight bits of `c`, below the carry.
#[tactic(auto, unfolding(crate::specs::Encoder::eight_bits_out))]
fn write_eight_bits<A: Allocator>(bytes: &mut Vec<u8, A>, c: u32) -> Result<CodeRegister>
    ensures value { IfOk result
        (λ code. writer_of bytes.new.items code ≡ eight_bits_out c (reverse bytes.old.items)) }
    ensures err { IfErr result (λ e. e ≡ OutOfMemory) }
    ensures bits { IfOk result (λ code. code.ct ≡ 8) }
    ensures bound { IfOk result (λ code. code.c < 2 ^ 19) }
{
    bytes.push((c / 0x8_0000 % 0x100) as u8)?;
    Ok(CodeRegister {
        c: c % 0x8_0000,
        ct: 8,
    })
}

/// Writes the carry of `c` and its top seven bits after a byte FF.
#[tactic(auto, unfolding(crate::specs::Encoder::seven_bits_out))]
fn write_seven_bits<A: Allocator>(bytes: &mut Vec<u8, A>, c: u32) -> Result<CodeRegister>
    requires { c < 2 ^ 28 }
    ensures value { IfOk result
        (λ code. writer_of bytes.new.items code ≡ seven_bits_out c (reverse bytes.old.items)) }
    ensures err { IfErr result (λ e. e ≡ OutOfMemory) }
    ensures bits { IfOk result (λ code. code.ct ≡ 7) }
    ensures bound { IfOk result (λ code. code.c < 2 ^ 20) }
{
    bytes.push((c / 0x10_0000) as u8)?;
    Ok(CodeRegister {
        c: c % 0x10_0000,
        ct: 7,
    })
}

fn last_out(bytes: &[u8]) -> Option<u8>
    ensures { MatchOption result (reverse bytes.now ≡ [])
        (λ last. reverse bytes.now ≡ last ∷ drop 1 (reverse bytes.now)) }
{
    bytes.last().copied()
}

fn replace_last<A: Allocator>(bytes: &mut Vec<u8, A>, byte: u8)
    requires { 0 < vec_len bytes.old }
    ensures { reverse bytes.new.items ≡ byte ∷ drop 1 (reverse bytes.old.items) }
{
    let index = bytes.len() - 1;
    bytes[index] = byte;
}

/// Writes the next byte of `c` (BYTEOUT, E.2.7).
fn byte_out<A: Allocator>(bytes: &mut Vec<u8, A>, c: u32) -> Result<CodeRegister>
    requires { c < 2 ^ 28 }
    ensures value { IfOk result
        (λ code. writer_of bytes.new.items code ≡ byte_out c (reverse bytes.old.items)) }
    ensures err { IfErr result (λ e. e ≡ OutOfMemory) }
    ensures room { IfOk result (λ code. (a : ℕ) → a ≤ 2 ^ 16 → HasRoom a code) }
{
    let Some(last) = last_out(bytes) else {
        return write_eight_bits(bytes, c);
    };
    if last == 0xFF {
        return write_seven_bits(bytes, c);
    }
    if c < CARRY {
        return write_eight_bits(bytes, c);
    }
    replace_last(bytes, last + 1);
    if last + 1 == 0xFF {
        return write_seven_bits(bytes, c % CARRY);
    }
    write_eight_bits(bytes, c)
}

/// Shifts A and C by one bit.
#[tactic(auto, unfolding(crate::specs::Encoder::shift_once))]
fn shift<A: Allocator>(bytes: &mut Vec<u8, A>, registers: Registers) -> Result<Registers>
    requires half { registers.a < 0x8000 }
    requires room { HasRoom registers.a registers.code }
    ensures value { IfOk result (λ r. writer_of bytes.new.items r.code
        ≡ shift_once (writer_of bytes.old.items registers.code)) }
    ensures range { IfOk result (λ r. r.a ≡ 2 * registers.a) }
    ensures err { IfErr result (λ e. e ≡ OutOfMemory) }
    ensures room { IfOk result (λ r. HasRoom r.a r.code) }
{
    let a = 2 * registers.a;
    let c = 2 * registers.code.c;
    let ct = registers.code.ct - 1;
    if ct == 0 {
        let code = byte_out(bytes, c)?;
        return Ok(Registers { a, code });
    }
    let code = CodeRegister { c, ct };
    Ok(Registers { a, code })
}

/// Shifts A and C bit by bit until A has its top bit again. Few decisions fill a byte, so it is a function of its own.
#[inline(never)]
fn renormalize_by_turns<A: Allocator>(
    bytes: &mut Vec<u8, A>,
    registers: Registers,
) -> Result<Registers>
    requires some { 1 ≤ registers.a }
    requires below { registers.a < 0x10000 }
    requires room { HasRoom registers.a registers.code }
    ensures value { IfOk result (λ r. encoder_state bytes.new.items r
        ≡ renorme 15 registers.a (writer_of bytes.old.items registers.code)) }
    ensures err { IfErr result (λ e. e ≡ OutOfMemory) }
    ensures normal { IfOk result (λ r. 0x8000 ≤ r.a) }
    ensures below { IfOk result (λ r. r.a < 0x10000) }
    ensures room { IfOk result (λ r. HasRoom r.a r.code) }
{
    let mut registers = registers;
    while registers.a < 0x8000 {
        registers = shift(bytes, registers)?;
    }
    Ok(registers)
}

/// A and C shifted by so many bits at once, if no byte goes out.
#[inline(always)]
fn shifted(registers: Registers, shifts: u32) -> Registers
    requires few { shifts < registers.code.ct }
    requires below { registers.a * 2 ^ shifts < 0x10000 }
    requires room { HasRoom registers.a registers.code }
    ensures value { result ≡ shifted_registers shifts registers }
    ensures room { HasRoom result.a result.code }
{
    Registers {
        a: registers.a << shifts,
        code: CodeRegister {
            c: registers.code.c << shifts,
            ct: registers.code.ct - shifts,
        },
    }
}

/// Shifts until A has its top bit again, and gives the registers then (RENORME, E.2.6).
#[inline(always)]
fn renormalize<A: Allocator>(bytes: &mut Vec<u8, A>, registers: Registers) -> Result<Registers>
    requires some { 1 ≤ registers.a }
    requires half { registers.a < 0x8000 }
    requires room { HasRoom registers.a registers.code }
    ensures value { IfOk result (λ r. encoder_state bytes.new.items r
        ≡ renorme 15 registers.a (writer_of bytes.old.items registers.code)) }
    ensures err { IfErr result (λ e. e ≡ OutOfMemory) }
    ensures normal { IfOk result (λ r. 0x8000 ≤ r.a) }
    ensures below { IfOk result (λ r. r.a < 0x10000) }
    ensures room { IfOk result (λ r. HasRoom r.a r.code) }
{
    let shifts = registers.a.leading_zeros() - 16;
    if shifts < registers.code.ct {
        return Ok(shifted(registers, shifts));
    }
    renormalize_by_turns(bytes, registers)
}

/// Narrows the interval to the part of `decision`, and returns whether it must be renormalized
/// (CODEMPS and CODELPS, E.2.4).
#[inline(always)]
fn narrow(registers: &mut Registers, context: &mut ArithmeticDecoderContext, decision: bool) -> bool
    requires normal { 0x8000 ≤ registers.old.a }
    requires below { registers.old.a < 0x10000 }
    requires room { registers.old.code.c < 2 ^ 28 }
    ensures value { narrowed_interval context.old decision registers.old.a registers.old.code.c
        ≡ record {
          range = registers.new.a;
          register = registers.new.code.c;
          context = context.new;
          renorm = result;
        } }
    ensures bits { registers.new.code.ct ≡ registers.old.code.ct }
    ensures some { 1 ≤ registers.new.a }
    ensures below { registers.new.a < 0x10000 }
    ensures within { registers.new.code.c + registers.new.a
        ≤ registers.old.code.c + registers.old.a }
    ensures normal { OnFalse result (0x8000 ≤ registers.new.a) }
    ensures half { OnTrue result (registers.new.a < 0x8000) }
{
    let qe = state_at(context.state).qe;
    let rest = registers.a - qe;
    if decision == context.likely_symbol() {
        if rest >= 0x8000 {
            registers.a = rest;
            registers.code.c += qe;
            return false;
        }
        context.after_likely();
        if rest < qe {
            registers.a = qe;
            return true;
        }
        registers.a = rest;
        registers.code.c += qe;
        return true;
    }
    context.after_unlikely();
    if rest < qe {
        registers.a = rest;
        registers.code.c += qe;
        return true;
    }
    registers.a = qe;
    true
}

/// C with as many low bits set as the interval allows (SETBITS, E.2.9).
#[tactic(auto, unfolding(crate::specs::Encoder::set_bits))]
fn set_bits(a: u32, c: u32) -> u32
    requires normal { 0x8000 ≤ a }
    requires below { a < 0x10000 }
    requires room { c < 2 ^ 28 }
    ensures value { result ≡ set_bits a c }
    ensures within { result < c + a }
{
    let ones = c - c % 0x1_0000 + 0xFFFF;
    if ones >= c + a { ones - 0x8000 } else { ones }
}

fn is_full(bytes: &[u8]) -> bool
    ensures { result ≡ is_full (reverse bytes.now) }
{
    match last_out(bytes) {
        Some(last) => last == 0xFF,
        None => false,
    }
}

/// Adds the marker FF AC to the bytes (E.2.9). A last byte FF begins the marker.
fn close<A: Allocator>(bytes: &mut Vec<u8, A>) -> Result<()>
    ensures value { OnOk result (bytes.new.items ≡ with_marker (reverse bytes.old.items)) }
    ensures err { IfErr result (λ e. e ≡ OutOfMemory) }
{
    if is_full(bytes) {
        bytes.push(0xAC)?;
        return Ok(());
    }
    bytes.extend_from_slice(&[0xFF, 0xAC])?;
    Ok(())
}

/// Writes decisions in their contexts.
#[derive(Drop)]
pub struct ArithmeticEncoder<A: Allocator> {
    registers: Registers,
    bytes: Vec<u8, A>,
}

impl<A: Allocator> Model for ArithmeticEncoder<A> {
    ghost use Rattle.jbig2_coder.specs.Encoder.{EncoderState};
    ghost use Rattle.jbig2_coder.specs.inner.EncoderViews.{encoder_state, IsAtRest};

    ghost Value = { EncoderState };

    ghost view = { λ s. encoder_state s.bytes.items s.registers };

    ghost invariant = { λ s. IsAtRest s.registers };
}

impl<A: Allocator> ArithmeticEncoder<A> {
    /// An encoder that has written nothing (INITENC, E.2.8).
    #[tactic(auto, unfolding(crate::specs::Encoder::initial_coding))]
    pub fn new(alloc: A) -> Self
        ensures { result ≡ initial_coding }
    {
        ArithmeticEncoder {
            registers: Registers {
                a: 0x8000,
                code: CodeRegister { c: 0, ct: 12 },
            },
            bytes: Vec::new(alloc),
        }
    }

    /// Codes one decision in `context`, and changes `context` (ENCODE, E.2.2).
    #[tactic(auto, unfolding(crate::specs::Encoder::encoding))]
    #[inline(always)]
    pub fn encode(&mut self, context: &mut ArithmeticDecoderContext, decision: bool) -> Result<()>
        ensures value { OnOk result (self.new ≡ (encoding context.old decision self.old).coding) }
        ensures context { OnOk result
            (context.new ≡ (encoding context.old decision self.old).context) }
        ensures err { IfErr result (λ e. e ≡ OutOfMemory) }
    {
        let mut registers = self.registers;
        if narrow(&mut registers, context, decision) {
            registers = renormalize(&mut self.bytes, registers)?;
        }
        self.registers = registers;
        Ok(())
    }

    /// The bytes, with the marker FF AC at the end (FLUSH, E.2.9).
    pub fn finish(self) -> Result<Vec<u8, A>>
        ensures { Gives (λ v. v.items) result (Ok (with_marker (flush_coder self).out)) }
    {
        let ArithmeticEncoder {
            registers,
            mut bytes,
        } = self;
        let Registers { a, code } = registers;
        let first = byte_out(&mut bytes, set_bits(a, code.c) << code.ct)?;
        byte_out(&mut bytes, first.c << first.ct)?;
        close(&mut bytes)?;
        Ok(bytes)
    }
}
