//! Writes and reads whole lists of decisions by the arithmetic coder (T.88, Annexes E and G).

ghost use Rattle.std.specs.Prelude.{◌≡◌, ℕ, ◌+◌, Bool, List, [], ◌∷◌, length, vec_len, IfOk, IfErr, OnOk, Ok};
ghost use Rattle.jbig2_base.specs.Results.{Gives};
ghost use Rattle.jbig2_base.specs.declared.error.DecodeError.TheVariants.{OutOfMemory};
ghost use Rattle.jbig2_coder.specs.Encoder.{contexts_of, encoded_bytes, read_back, Codes, DecodesBack, HasCoded};
ghost use Rattle.jbig2_coder.specs.inner.EncoderViews.{all_fresh};

use crate::arithmetic_decoder::{ArithmeticDecoder, ArithmeticDecoderContext};
use crate::mq::encoder::ArithmeticEncoder;
use jbig2_base::error::Result;
use jbig2_steps::Steps;
use std::alloc::Allocator;
use std::marker::Model;
use std::sync::ledger::Ledger;

mod encoder;

/// The number of contexts: one for each number of sixteen bits.
const CONTEXTS: usize = 0x1_0000;

fn fresh_contexts<A: Allocator>(alloc: A) -> Result<Vec<ArithmeticDecoderContext, A>>
    ensures fresh { IfOk result (λ v. contexts_of v.items ≡ all_fresh) }
    ensures len { IfOk result (λ v. vec_len v ≡ CONTEXTS) }
    ensures err { IfErr result (λ e. e ≡ OutOfMemory) }
{
    let mut contexts = Vec::new(alloc);
    contexts.resize(CONTEXTS, ArithmeticDecoderContext::new())?;
    Ok(contexts)
}

/// Takes decisions one by one, each with the number of its context, and gives the bytes of their
/// list (T.88, E.2).
/// Every context is fresh before the first decision.
#[derive(Drop)]
pub struct ListEncoder<A: Allocator> {
    contexts: Vec<ArithmeticDecoderContext, A>,
    encoder: ArithmeticEncoder<A>,
}

impl<A: Allocator> Model for ListEncoder<A> {
    ghost use Rattle.std.specs.Prelude.{◌≡◌, ◌^◌, vec_len};
    ghost use Rattle.jbig2_coder.specs.Encoder.{CodingInContexts};

    ghost Value = { CodingInContexts };

    ghost view = { λ s. record { coding = s.encoder; contexts = s.contexts.items } };

    ghost invariant = { λ s. vec_len s.contexts ≡ 2 ^ 16 };
}

impl<A: Allocator + Clone> ListEncoder<A> {
    /// An encoder that has no decision yet.
    ///
    /// Returns `OutOfMemory` if memory is refused.
    pub fn new(alloc: A) -> Result<Self>
        ensures coded { IfOk result (λ encoder. HasCoded encoder []) }
        ensures err { IfErr result (λ e. e ≡ OutOfMemory) }
    {
        let contexts = fresh_contexts(alloc.clone()?)?;
        Ok(ListEncoder {
            contexts,
            encoder: ArithmeticEncoder::new(alloc),
        })
    }
}

impl<A: Allocator> ListEncoder<A> {
    /// Adds one decision, in the context of this number.
    ///
    /// Returns `OutOfMemory` if memory is refused. Then the bytes of the list are lost.
    #[inline(always)]
    pub fn push(&mut self, context: u16, decision: bool) -> Result<()>
        ensures coded { OnOk result (Codes self.old self.new ((context, decision) ∷ [])) }
        ensures err { IfErr result (λ e. e ≡ OutOfMemory) }
    {
        self.encoder
            .encode(&mut self.contexts[usize::from(context)], decision)?;
        Ok(())
    }

    /// The bytes of the list.
    ///
    /// Returns `OutOfMemory` if memory is refused.
    pub fn finish(self) -> Result<Vec<u8, A>>
        ensures bytes { (list : List (ℕ × Bool)) → HasCoded self list
            → Gives (λ v. v.items) result (Ok (encoded_bytes list)) }
    {
        let ListEncoder {
            contexts: _,
            encoder,
        } = self;
        encoder.finish()
    }
}

/// The bytes of a list of decisions, each with the number of its context (T.88, E.2). Every context
/// is fresh before the first decision.
///
/// Returns `OutOfMemory` if memory is refused.
pub fn encode_list<A: Allocator + Clone>(alloc: A, list: &[(u16, bool)]) -> Result<Vec<u8, A>>
    ensures { Gives (λ v. v.items) result (Ok (encoded_bytes list.now)) }
{
    let mut encoder = ListEncoder::new(alloc)?;
    for (number, decision) in list {
        encoder.push(*number, *decision)?;
    }
    encoder.finish()
}

/// The decisions that the decoder reads from `bytes` in these contexts, one after another (T.88,
/// Annex G). Every context is fresh before the first decision.
///
/// Returns `OutOfMemory` if memory is refused.
pub fn decode_list<A: Allocator + Clone, L: Ledger>(
    alloc: A,
    bytes: &[u8],
    contexts: &[u16],
    steps: &mut Steps<L>,
) -> Result<Vec<bool, A>>
    ensures value { Gives (λ v. v.items) result (Ok (read_back bytes.now contexts.now)) }
    ensures steps { OnOk result
        (steps.new ≡ record steps.old { decisions = steps.old.decisions + length contexts.now }) }
{
    let mut table = fresh_contexts(alloc.clone()?)?;
    let mut decoder = ArithmeticDecoder::new(bytes);
    let mut decisions = Vec::new(alloc);
    for number in contexts {
        let decision = decoder.decode(&mut table[usize::from(*number)], steps);
        decisions.push(decision == 1)?;
    }
    Ok(decisions)
}

/// The law that the decoder is the encoder's inverse. Take any list of decisions, each with the
/// number of its context. The encoder of E.2 gives bytes for it. From these bytes the decoder of
/// Annex G reads the same decisions, if it uses the same contexts. Every context of both is fresh
/// before the first decision.
///
/// The call does nothing. The law holds for all lists. It is about the definitions, which
/// `encode_list` and `decode_list` meet.
pub fn decodes_back()
    ensures { DecodesBack }
{}
