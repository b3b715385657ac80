//! An output with a buffer.
ghost use Rattle.std.specs.Prelude.{◌≡◌, ◌≤◌, [], IsTrue, IfErr, length, take};
ghost use Rattle.std.specs.Io.KnownBytes.{Appends, Keeps};
ghost use Rattle.jbig2_program.specs.inner.Printing.{data_of, output_id, AppendsIf};

use crate::fault::Fault;
use std::alloc::Allocator;
use std::io::{ErrorKind, Write};

/// How many bytes are gathered before some are written, at least.
pub(crate) const GATHERED: usize = 8192;

/// An output, and the bytes that are not yet written to it. Unlike `BufWriter` it keeps all bytes
/// after a failure too, and its proofs know which output it has.
#[derive(Drop)]
pub struct Output<'o, O: Write, A: Allocator> {
    out: &'o mut O,
    held: Vec<u8, A>,
}

/// Writes as many of the bytes as the output takes, and returns how many.
fn send<O: Write>(out: &mut O, bytes: &[u8]) -> usize
    ensures bound { result ≤ length bytes.now }
    ensures sent { Appends (O.contents out.old) (O.contents out.new) (take result bytes.now) }
{
    let mut sent = 0;
    for _turn in 0..u64::MAX {
        if sent == bytes.len() {
            return sent;
        }
        match out.write(&bytes[sent..]) {
            Ok(0) => return sent,
            Ok(count) => sent += count,
            Err(error) => {
                if error.kind() != ErrorKind::Interrupted {
                    return sent;
                }
            }
        }
    }
    sent
}

impl<'o, O: Write, A: Allocator> Output<'o, O, A> {
    pub fn new(held: Vec<u8, A>, out: &'o mut O) -> Output<'o, O, A>
        ensures same { output_id result ≡ out.entry.ghost_name }
        ensures now { result.out.now ≡ out.entry.now }
        ensures held { result.held.items ≡ held.items }
    {
        Output { out, held }
    }

    /// The output. Bytes that are not yet written are dropped.
    pub fn into_inner(self) -> &'o mut O
        ensures same { result.ghost_name ≡ output_id self.entry }
        ensures now { result.now ≡ self.entry.out.now }
    {
        let Output { out, held: _ } = self;
        out
    }

    /// Writes the bytes that are held. Returns whether all could be written; the rest stays.
    pub fn write_held(&mut self) -> bool
        ensures same { output_id self.new ≡ output_id self.old }
        ensures bytes { Keeps (data_of O.contents self.old) (data_of O.contents self.new) }
        ensures empty { IsTrue result → self.new.held.items ≡ [] }
    {
        let sent = send(self.out, &self.held);
        let count = self.held.len() - sent;
        self.held.as_mut_slice().copy_within(sent.., 0);
        self.held.truncate(count);
        count == 0
    }

    /// Adds bytes. Returns whether it did; else nothing changes.
    pub fn push(&mut self, bytes: &[u8]) -> bool
        ensures same { output_id self.new ≡ output_id self.old }
        ensures taken { AppendsIf result (data_of O.contents self.old) (data_of O.contents self.new)
            bytes.now }
    {
        if self.held.len() >= GATHERED && !self.write_held() {
            return false;
        }
        self.held.extend_from_slice(bytes).is_ok()
    }
}

/// Flushes an output.
pub fn flush<O: Write>(out: &mut O) -> Result<(), Fault>
    ensures kept { Keeps (O.contents out.old) (O.contents out.new) }
    ensures fault { IfErr result (λ fault. fault ≡ Fault.Unwritable) }
{
    match out.flush() {
        Ok(()) => Ok(()),
        Err(_) => Err(Fault::Unwritable),
    }
}
