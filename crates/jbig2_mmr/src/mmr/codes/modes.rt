//! The codes of modes (T.6, table 1), as entries.

/// The index is the next 7 bits. An entry is 8 times the kind, plus the size of the code in bits; 0
/// if there is no code. Kind 1 is the pass mode, 2 the horizontal mode, and 3 to 9 a vertical mode
/// whose distance is the kind less 6.
pub static MODES: [u8; 128] = [
    0, 0, 31, 79, 38, 38, 70, 70, 12, 12, 12, 12, 12, 12, 12, 12, 19, 19, 19, 19, 19, 19, 19, 19,
    19, 19, 19, 19, 19, 19, 19, 19, 43, 43, 43, 43, 43, 43, 43, 43, 43, 43, 43, 43, 43, 43, 43, 43,
    59, 59, 59, 59, 59, 59, 59, 59, 59, 59, 59, 59, 59, 59, 59, 59, 49, 49, 49, 49, 49, 49, 49, 49,
    49, 49, 49, 49, 49, 49, 49, 49, 49, 49, 49, 49, 49, 49, 49, 49, 49, 49, 49, 49, 49, 49, 49, 49,
    49, 49, 49, 49, 49, 49, 49, 49, 49, 49, 49, 49, 49, 49, 49, 49, 49, 49, 49, 49, 49, 49, 49, 49,
    49, 49, 49, 49, 49, 49, 49, 49,
];
