//! Bytes written as text.
ghost use Rattle.std.specs.Prelude.{◌<◌, IfSome};

use crate::piece::PIECES;
use hayro_jbig2::Result;
use std::alloc::Allocator;

/// The bytes that a text means; `None` where it is no such text.
///
/// The text has words with single spaces between them, and each word means bytes. `0A1B` means the bytes with these
/// hexadecimal digits; `00*9` means nine times `00`; `P` means the piece of that name; `P@27=04` means that piece with
/// other bytes from place 27 on, and `P@11=00000009@27=04` the piece with two such changes.
pub fn bytes_of<A: Allocator + Clone>(alloc: &A, text: &str) -> Result<Option<Vec<u8, A>>> {
    let mut bytes = Vec::new(alloc.clone()?);
    for word in text.split(' ') {
        if !push_word(&mut bytes, word)? {
            return Ok(None);
        }
    }
    Ok(Some(bytes))
}

/// Appends the bytes that one word means; false where it is no such word.
fn push_word<A: Allocator>(bytes: &mut Vec<u8, A>, word: &str) -> Result<bool> {
    let mut parts = word.split('@');
    let Some(name) = parts.next() else {
        return Ok(false);
    };
    let Some(piece) = PIECES.iter().find(|piece| piece.name == name) else {
        return push_plain(bytes, word);
    };
    let start = bytes.len();
    for plain in piece.bytes.split(' ') {
        if !push_plain(bytes, plain)? {
            return Ok(false);
        }
    }
    for change in parts {
        if !change_bytes(bytes, start, change) {
            return Ok(false);
        }
    }
    Ok(true)
}

/// Appends digits, as many times as the number after `*` says.
fn push_plain<A: Allocator>(bytes: &mut Vec<u8, A>, word: &str) -> Result<bool> {
    let (digits, count) = word.split_once('*').unwrap_or((word, "1"));
    let Ok(count) = count.parse::<u32>() else {
        return Ok(false);
    };
    for _ in 0..count {
        for pair in digits.as_bytes().chunks(2) {
            let Some(byte) = byte_of(pair) else {
                return Ok(false);
            };
            bytes.push(byte)?;
        }
    }
    Ok(true)
}

/// Writes the digits after a place and `=` over the bytes from that place on, counted from `start`.
fn change_bytes(bytes: &mut [u8], start: usize, change: &str) -> bool {
    let Some((place, digits)) = change.split_once('=') else {
        return false;
    };
    let Ok(place) = place.parse::<usize>() else {
        return false;
    };
    for (offset, pair) in digits.as_bytes().chunks(2).enumerate() {
        let place = start.saturating_add(place).saturating_add(offset);
        match (bytes.get_mut(place), byte_of(pair)) {
            (Some(byte), Some(value)) => *byte = value,
            _ => return false,
        }
    }
    true
}

fn byte_of(pair: &[u8]) -> Option<u8> {
    match pair {
        [high, low] => Some(16 * digit_of(*high)? + digit_of(*low)?),
        _ => None,
    }
}

fn digit_of(character: u8) -> Option<u8>
    ensures { IfSome result (λ digit. digit < 16) }
{
    match character {
        b'0'..=b'9' => Some(character - b'0'),
        b'A'..=b'F' => Some(character - b'A' + 10),
        _ => None,
    }
}
