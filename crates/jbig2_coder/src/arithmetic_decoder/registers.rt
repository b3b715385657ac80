//! The registers of the arithmetic decoder, and how bytes go into them (T.88, Annex G).

ghost use Rattle.std.specs.Prelude.{◌≡◌, ◌+◌, ◌-◌, ◌*◌, ◌/◌, ◌^◌, ◌<◌, ◌≤◌, length};
ghost use Rattle.jbig2_coder.specs.Coder.{byte_at, byte_in, renormd};
ghost use Rattle.jbig2_coder.specs.inner.Ahead.{IsAhead, seen_of, seen_registers, shift_buffer};

/// The code register C, the bits of it that are left before the next byte is read (CT), and the
/// place of the byte that was read last.
#[derive(Clone, Copy)]
pub struct CodeRegister {
    pub c: u32,
    pub ct: u32,
    pub place: usize,
}

/// The code register with bytes that are read ahead. Its upper half is in the highest 16 bits of
/// `c`; `bits` bits come after it, and then zeros. `place` is the place of the byte that was read
/// last. Bytes after a byte FF are not read ahead, because they may change the bits above them.
#[derive(Clone, Copy)]
pub struct CodeBuffer {
    pub c: u64,
    pub bits: u32,
    pub place: usize,
}

/// The interval register A, and the code register.
#[derive(Clone, Copy)]
pub struct BufferedRegisters {
    pub a: u32,
    pub code: CodeBuffer,
}

impl CodeBuffer {
    /// The upper half of the code register, which decisions compare with A.
    #[inline(always)]
    pub(crate) fn upper_half(self) -> u32
        ensures { result ≡ self.c / 2 ^ 48 }
    {
        (self.c >> 48) as u32
    }

    /// An empty buffer filled with the next bytes, but not with a byte after a byte FF.
    #[inline(always)]
    fn fill(self, bytes: &[u8]) -> CodeBuffer
        requires empty { self.bits ≡ 0 }
        requires ahead { IsAhead bytes.now self }
        ensures ahead { IsAhead bytes.now result }
        ensures same { seen_of result ≡ seen_of self }
    {
        let mut code = self;
        while code.bits <= 40 && byte_at(bytes, code.place) != 0xFF {
            let next = byte_at(bytes, code.place + 1);
            code.c += u64::from(!next) << (40 - code.bits);
            code.bits += 8;
            code.place += 1;
        }
        code
    }
}

/// The byte at `place`; FF past the end.
#[tactic(auto, unfolding(crate::specs::Coder::byte_at))]
#[inline(always)]
pub(crate) fn byte_at(bytes: &[u8], place: usize) -> u8
    ensures { result ≡ byte_at bytes.now place }
{
    bytes.get(place).copied().unwrap_or(0xFF)
}

/// The code register after the byte after `place` is read into `c` (BYTEIN, Figure G.3).
#[tactic(auto, unfolding(crate::specs::Coder::byte_in))]
#[inline(always)]
pub(crate) fn byte_in(bytes: &[u8], c: u32, place: usize) -> CodeRegister
    requires { place ≤ length bytes.now }
    ensures value { result ≡ byte_in bytes.now c place }
    ensures within { result.place ≤ length bytes.now }
    ensures some { 7 ≤ result.ct }
    ensures few { result.ct ≤ 8 }
{
    if byte_at(bytes, place) != 0xFF {
        let next = u32::from(byte_at(bytes, place + 1));
        return CodeRegister {
            c: c.wrapping_add(0xFF00 - (next << 8)),
            ct: 8,
            place: place + 1,
        };
    }
    let next = u32::from(byte_at(bytes, place + 1));
    if next > 0x8F {
        return CodeRegister { c, ct: 8, place };
    }
    CodeRegister {
        c: c.wrapping_add(0xFE00).wrapping_sub(next << 9),
        ct: 7,
        place: place + 1,
    }
}

/// By how many bits A can be shifted at once: up to its top bit, and at most by the bits left.
#[inline(always)]
fn batch(a: u32, bits: u32) -> u32
    requires some { 1 ≤ a }
    requires half { a < 0x8000 }
    requires bits { 1 ≤ bits }
    ensures some { 1 ≤ result }
    ensures left { result ≤ bits }
    ensures few { result ≤ 15 }
    ensures room { a * 2 ^ result < 2 ^ 16 }
{
    (a.leading_zeros() - 16).min(bits)
}

impl BufferedRegisters {
    /// Narrows the interval to a part of this size; `below` is the size of what lies below it.
    #[inline(always)]
    pub(crate) fn narrow(&mut self, size: u32, below: u32)
        requires inside { below ≤ self.old.code.c / 2 ^ 48 }
        requires half { below < 0x10000 }
        ensures { self.new ≡ record {
          a = size;
          code = record self.old.code { c = self.old.code.c - below * 2 ^ 48 };
        } }
    {
        self.a = size;
        self.code.c -= u64::from(below) << 48;
    }

    /// Shifts A and the code register by bits that the buffer has.
    #[inline(always)]
    fn shift(&mut self, shifts: u32)
        requires few { shifts ≤ 15 }
        requires bits { shifts ≤ self.old.code.bits }
        requires room { self.old.a * 2 ^ shifts < 2 ^ 16 }
        ensures { self.new ≡
            record { a = self.old.a * 2 ^ shifts; code = shift_buffer shifts self.old.code } }
    {
        self.a <<= shifts;
        self.code.c <<= shifts;
        self.code.bits -= shifts;
    }

    /// Fills the buffer if it is empty.
    #[inline(always)]
    fn refill(&mut self, bytes: &[u8])
        requires { IsAhead bytes.now self.old.code }
        ensures ahead { IsAhead bytes.now self.new.code }
        ensures same { seen_registers self.new ≡ seen_registers self.old }
    {
        if self.code.bits == 0 {
            self.code = self.code.fill(bytes);
        }
    }

    /// Shifts once, with an empty buffer. The next byte's bits come in, whatever byte is before it.
    #[inline(always)]
    fn take_byte(&mut self, bytes: &[u8])
        requires some { 1 ≤ self.old.a }
        requires half { self.old.a < 0x8000 }
        requires ahead { IsAhead bytes.now self.old.code }
        requires empty { self.old.code.bits ≡ 0 }
        ensures ahead { IsAhead bytes.now self.new.code }
        ensures same { renormd bytes.now 15 self.old.a (seen_of self.old.code)
            ≡ renormd bytes.now 15 self.new.a (seen_of self.new.code) }
        ensures a { self.new.a ≡ 2 * self.old.a }
    {
        let read = byte_in(bytes, (self.code.c >> 32) as u32, self.code.place);
        self.a *= 2;
        self.code = CodeBuffer {
            c: u64::from(read.c << 1) << 32,
            bits: read.ct - 1,
            place: read.place,
        };
    }

    /// Shifts at least once, as far as A and the bits of the buffer allow.
    #[inline(always)]
    fn turn(&mut self, bytes: &[u8])
        requires some { 1 ≤ self.old.a }
        requires half { self.old.a < 0x8000 }
        requires ahead { IsAhead bytes.now self.old.code }
        ensures ahead { IsAhead bytes.now self.new.code }
        ensures same { renormd bytes.now 15 self.old.a (seen_of self.old.code)
            ≡ renormd bytes.now 15 self.new.a (seen_of self.new.code) }
        ensures more { self.old.a < self.new.a }
        ensures below { self.new.a < 0x10000 }
    {
        self.refill(bytes);
        if self.code.bits == 0 {
            self.take_byte(bytes);
            return;
        }
        self.shift(batch(self.a, self.code.bits));
    }

    /// Shifts until A has its top bit again, if the buffer has too few bits for it. That is rare, so
    /// it is a function of its own.
    #[inline(never)]
    fn renormalize_by_turns(&mut self, bytes: &[u8])
        requires some { 1 ≤ self.old.a }
        requires below { self.old.a < 0x10000 }
        requires ahead { IsAhead bytes.now self.old.code }
        ensures value { seen_registers self.new
            ≡ renormd bytes.now 15 self.old.a (seen_of self.old.code) }
        ensures ahead { IsAhead bytes.now self.new.code }
        ensures normal { 0x8000 ≤ self.new.a }
        ensures below { self.new.a < 0x10000 }
    {
        while self.a < 0x8000 {
            self.turn(bytes);
        }
    }

    /// Shifts until A has its top bit again (RENORMD, E.3.3).
    #[inline(always)]
    pub(crate) fn renormalize(&mut self, bytes: &[u8])
        requires some { 1 ≤ self.old.a }
        requires half { self.old.a < 0x8000 }
        requires ahead { IsAhead bytes.now self.old.code }
        ensures value { seen_registers self.new
            ≡ renormd bytes.now 15 self.old.a (seen_of self.old.code) }
        ensures ahead { IsAhead bytes.now self.new.code }
        ensures normal { 0x8000 ≤ self.new.a }
        ensures below { self.new.a < 0x10000 }
    {
        let shifts = self.a.leading_zeros() - 16;
        if shifts > self.code.bits {
            self.renormalize_by_turns(bytes);
            return;
        }
        self.shift(shifts);
    }
}
