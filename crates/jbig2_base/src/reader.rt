//! Reads bits and big-endian numbers from a slice (T.88, 7.1).
ghost use Rattle.std.specs.Prelude.{◌≡◌, ◌+◌, ◌<◌, ◌≤◌, ◌==◌, drop, length, take, min, IfSome, Option, option_map, option_and_then, Some, None, if◌then◌else◌};
ghost use Rattle.std.specs.Int.{w8, w16, w32, cast_signed};
ghost use Rattle.std.specs.List.{flat_map};
ghost use Rattle.jbig2_base.specs.Bits.{start_of, bits_left, bits_next, bits_on, byte_boundary, bytes_next, bytes_on, number_next, number_after, byte_bits, nonzero};

use std::marker::Model;

/// Bytes and a place in them. The place has a byte and a bit, so that no length overflows.
///
/// A byte read begins with the current byte, whole, and leaves the place at the beginning of a byte.
/// `None` means that the bytes end too early. A refused byte read does not move the place, and a
/// refused bit read moves it to the end. No call takes memory.
#[derive(Drop)]
pub struct Reader<'a> {
    bytes: &'a [u8],
    byte: usize,
    bit: u8,
}

impl<'a> Model for Reader<'a> {
    ghost use Rattle.std.specs.Prelude.{◌≡◌, ◌<◌, ◌≤◌, drop, length};
    ghost use Rattle.jbig2_base.specs.Bits.{Place};

    ghost Value = { Place };

    ghost view = { λ r. record { bytes = drop r.byte r.bytes.now; bit = r.bit } };

    ghost invariant = { λ r. (r.byte ≤ length r.bytes.now) × (r.bit < 8) ×
        (r.byte ≡ length r.bytes.now → r.bit ≡ 0) };
}

impl<'a> Reader<'a> {
    /// A reader at the first bit of `bytes`.
    pub fn new(bytes: &'a [u8]) -> Reader<'a>
        ensures { result ≡ start_of bytes.now }
    {
        Reader {
            bytes,
            byte: 0,
            bit: 0,
        }
    }

    /// Another reader at the same place.
    pub fn duplicate(&self) -> Reader<'a>
        ensures { result ≡ self.now }
    {
        Reader {
            bytes: self.bytes,
            byte: self.byte,
            bit: self.bit,
        }
    }

    /// Goes to the beginning of the next byte, unless the place is at the beginning of a byte.
    pub fn align(&mut self)
        ensures { self.new ≡ byte_boundary self.old }
    {
        if self.bit != 0 {
            self.byte += 1;
            self.bit = 0;
        }
    }

    /// Whether no bit is left.
    pub fn at_end(&self) -> bool
        ensures { result ≡ (length self.now.bytes == 0) }
    {
        self.byte >= self.bytes.len()
    }

    /// The bytes that are left, with the current one whole.
    pub fn tail(&self) -> &'a [u8]
        ensures { result.now ≡ self.now.bytes }
    {
        &self.bytes[self.byte..]
    }

    /// The next `count` bytes; the place stays.
    pub fn peek_bytes(&self, count: usize) -> Option<&'a [u8]>
        ensures { option_map (λ s. s.now) result ≡ bytes_next count self.now }
    {
        if count > self.bytes.len() - self.byte {
            return None;
        }
        Some(&self.bytes[self.byte..self.byte + count])
    }

    /// The next `count` bytes.
    pub fn read_bytes(&mut self, count: usize) -> Option<&'a [u8]>
        ensures value { option_map (λ s. s.now) result ≡ bytes_next count self.old }
        ensures place { self.new ≡ bytes_on count self.old }
    {
        if count > self.bytes.len() - self.byte {
            return None;
        }
        let start = self.byte;
        self.byte += count;
        self.bit = 0;
        Some(&self.bytes[start..start + count])
    }

    /// The next byte.
    pub fn read_byte(&mut self) -> Option<u8>
        ensures value { result ≡ number_next w8 self.old }
        ensures place { self.new ≡ bytes_on 1 self.old }
    {
        let bytes = self.read_bytes(1)?;
        Some(bytes[0])
    }

    /// The next byte; `None` also if it is 0, but the place moves on.
    pub fn read_nonzero_byte(&mut self) -> Option<u8>
        ensures value { result ≡ option_and_then nonzero (number_next w8 self.old) }
        ensures place { self.new ≡ bytes_on 1 self.old }
    {
        let byte = self.read_byte()?;
        if byte == 0 { None } else { Some(byte) }
    }

    /// The next two bytes as a number.
    pub fn read_u16(&mut self) -> Option<u16>
        ensures value { result ≡ number_next w16 self.old }
        ensures place { self.new ≡ bytes_on 2 self.old }
    {
        let bytes = self.read_bytes(2)?;
        Some(u16::from_be_bytes([bytes[0], bytes[1]]))
    }

    /// The next four bytes as a number.
    pub fn read_u32(&mut self) -> Option<u32>
        ensures value { result ≡ number_next w32 self.old }
        ensures place { self.new ≡ bytes_on 4 self.old }
    {
        let bytes = self.read_bytes(4)?;
        Some(u32::from_be_bytes([bytes[0], bytes[1], bytes[2], bytes[3]]))
    }

    /// The next four bytes as a signed number in two's complement.
    pub fn read_i32(&mut self) -> Option<i32>
        ensures value { result ≡ option_map (cast_signed w32) (number_next w32 self.old) }
        ensures place { self.new ≡ bytes_on 4 self.old }
    {
        let number = self.read_u32()?;
        Some(number.cast_signed())
    }

    /// The next bit.
    pub fn read_bit(&mut self) -> Option<u8>
        ensures value { result ≡ bits_next 1 (bits_left self.old) }
        ensures place { self.new ≡ bits_on 1 self.old }
        ensures rest { bits_left self.new ≡ drop 1 (bits_left self.old) }
        ensures small { IfSome result (λ b. b < 2) }
    {
        if self.byte >= self.bytes.len() {
            return None;
        }
        let value = (self.bytes[self.byte] >> (7 - self.bit)) & 1;
        if self.bit == 7 {
            self.byte += 1;
            self.bit = 0;
        } else {
            self.bit += 1;
        }
        Some(value)
    }

    /// The first eight of the bytes that are left, or all if there are fewer, as a number, and how
    /// many these are.
    fn word(&self) -> (u64, u8)
        ensures value { result.0 ≡ number_after 0 (flat_map byte_bits (take 8 self.now.bytes)) }
        ensures count { result.1 ≡ min 8 (length self.now.bytes) }
    {
        let bytes = self.tail();
        if bytes.len() >= 8 {
            let word = u64::from_be_bytes([
                bytes[0], bytes[1], bytes[2], bytes[3], bytes[4], bytes[5], bytes[6], bytes[7],
            ]);
            return (word, 8);
        }
        let mut word = 0;
        for byte in bytes {
            word = 256 * word + u64::from(*byte);
        }
        (word, bytes.len() as u8)
    }

    /// The next `count` bits as a number, high bit first; the place stays.
    pub fn peek_bits(&self, count: u8) -> Option<u32>
        requires { count ≤ 32 }
        ensures { result ≡ bits_next count (bits_left self.now) }
    {
        if count == 0 {
            return Some(0);
        }
        let (word, bytes) = self.word();
        let end = self.bit + count;
        if end > 8 * bytes {
            return None;
        }
        Some(((word >> (8 * bytes - end)) % (1 << count)) as u32)
    }

    /// Moves on by `count` bits, or to the end if fewer are left.
    pub fn advance(&mut self, count: u8)
        ensures place { self.new ≡ bits_on count self.old }
        ensures rest { bits_left self.new ≡ drop count (bits_left self.old) }
    {
        let end = usize::from(self.bit) + usize::from(count);
        if end.div_ceil(8) > self.bytes.len() - self.byte {
            self.byte = self.bytes.len();
            self.bit = 0;
        } else {
            self.byte += end / 8;
            self.bit = (end % 8) as u8;
        }
    }

    /// The next `count` bits as a number, high bit first.
    pub fn read_bits(&mut self, count: u8) -> Option<u32>
        requires { count ≤ 32 }
        ensures value { result ≡ bits_next count (bits_left self.old) }
        ensures place { self.new ≡ bits_on count self.old }
        ensures rest { bits_left self.new ≡ drop count (bits_left self.old) }
    {
        let value = self.peek_bits(count);
        self.advance(count);
        value
    }
}
