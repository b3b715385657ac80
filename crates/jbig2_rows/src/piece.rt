//! The pieces of bytes that the rows are made of.

/// Bytes with a name.
pub struct Piece {
    pub name: &'static str,
    /// The bytes in hexadecimal digits.
    pub bytes: &'static str,
}

/// The pieces. The texts of cases use their names.
pub const PIECES: &[Piece] = &[
    // The identification string of a file (T.88, D.4.1).
    Piece {
        name: "H",
        bytes: "974A42320D0A1A0A",
    },
    // The information of a white page of 8 by 1.
    Piece {
        name: "P",
        bytes: "00000000300001000000130000000800000001 00*11",
    },
    // An immediate generic region of 1 by 1 without coded bytes.
    Piece {
        name: "G",
        bytes: "00000001260001 0000001A 00000001 00000001 00*9 00 03FFFDFF02FEFEFE",
    },
    // The same of 8 by 1.
    Piece {
        name: "G8",
        bytes: "00000001260001 0000001A 00000008 00000001 00*9 00 03FFFDFF02FEFEFE",
    },
    // A pattern dictionary of one black pattern of 8 by 1, coded with MMR.
    Piece {
        name: "D",
        bytes: "00000001100001 0000000D 01 08 01 00000000 26A280080080",
    },
    // An immediate halftone region of 8 by 1 with one cell that refers to it, without coded bytes.
    Piece {
        name: "T",
        bytes: "0000000216200101 00000026 00000008 00000001 00*9 01 00000001 00000001 00*12",
    },
    // A symbol dictionary of one black symbol of 1 by 1, by prefix codes.
    Piece {
        name: "S",
        bytes: "00000001000001 0000000F 0001 00000001 00000001 5F80800040",
    },
    // An immediate text region of 8 by 1 with one instance, by prefix codes, that refers to it.
    Piece {
        name: "X",
        bytes: "0000000206200101 0000002D 00000008 00000001 00*9 0011 0000 00000001 01 00*17 0004",
    },
];
