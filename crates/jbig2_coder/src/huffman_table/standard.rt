//! The standard tables of Annex B (T.88, B.5).
ghost use Rattle.std.specs.Prelude.{◌≡◌, ◌<◌, [], IfErr, slice_index_or};
ghost use Rattle.jbig2_coder.specs.PrefixCode.{prefix_code};
ghost use Rattle.jbig2_coder.specs.Tables.{standard_tables, lines_a, lines_b, lines_c, lines_d, lines_e, lines_f, lines_g, lines_h, lines_i, lines_j, lines_k, lines_l, lines_m, lines_n, lines_o};

use super::HuffmanTable;
use super::line::TableLine;
use jbig2_base::error::{DecodeError, Result};
use std::alloc::Allocator;
use std::marker::Model;

/// A line, by its prefix length, its range length and its low value. `lower` and `upper` lines have
/// 32 range bits, and `oob` lines have none.
macro_rules! line {
    (lower $prefix_length:expr, $low:expr) => {
        TableLine {
            range_low: $low,
            prefix_length: $prefix_length,
            range_length: 32,
            is_lower: true,
            is_out_of_band: false,
        }
    };
    (upper $prefix_length:expr, $low:expr) => {
        line!($prefix_length, 32, $low)
    };
    (oob $prefix_length:expr) => {
        TableLine {
            range_low: 0,
            prefix_length: $prefix_length,
            range_length: 0,
            is_lower: false,
            is_out_of_band: true,
        }
    };
    ($prefix_length:expr, $range_length:expr, $low:expr) => {
        TableLine {
            range_low: $low,
            prefix_length: $prefix_length,
            range_length: $range_length,
            is_lower: false,
            is_out_of_band: false,
        }
    };
}

/// B.1
const TABLE_A: [TableLine; 4] = [
    line!(1, 4, 0),
    line!(2, 8, 16),
    line!(3, 16, 272),
    line!(upper 3, 65808),
];

/// B.2
const TABLE_B: [TableLine; 7] = [
    line!(1, 0, 0),
    line!(2, 0, 1),
    line!(3, 0, 2),
    line!(4, 3, 3),
    line!(5, 6, 11),
    line!(upper 6, 75),
    line!(oob 6),
];

/// B.3
const TABLE_C: [TableLine; 9] = [
    line!(8, 8, -256),
    line!(1, 0, 0),
    line!(2, 0, 1),
    line!(3, 0, 2),
    line!(4, 3, 3),
    line!(5, 6, 11),
    line!(lower 8, -257),
    line!(upper 7, 75),
    line!(oob 6),
];

/// B.4
const TABLE_D: [TableLine; 6] = [
    line!(1, 0, 1),
    line!(2, 0, 2),
    line!(3, 0, 3),
    line!(4, 3, 4),
    line!(5, 6, 12),
    line!(upper 5, 76),
];

/// B.5
const TABLE_E: [TableLine; 8] = [
    line!(7, 8, -255),
    line!(1, 0, 1),
    line!(2, 0, 2),
    line!(3, 0, 3),
    line!(4, 3, 4),
    line!(5, 6, 12),
    line!(lower 7, -256),
    line!(upper 6, 76),
];

/// B.6
const TABLE_F: [TableLine; 14] = [
    line!(5, 10, -2048),
    line!(4, 9, -1024),
    line!(4, 8, -512),
    line!(4, 7, -256),
    line!(5, 6, -128),
    line!(5, 5, -64),
    line!(4, 5, -32),
    line!(2, 7, 0),
    line!(3, 7, 128),
    line!(3, 8, 256),
    line!(4, 9, 512),
    line!(4, 10, 1024),
    line!(lower 6, -2049),
    line!(upper 6, 2048),
];

/// B.7
const TABLE_G: [TableLine; 15] = [
    line!(4, 9, -1024),
    line!(3, 8, -512),
    line!(4, 7, -256),
    line!(5, 6, -128),
    line!(5, 5, -64),
    line!(4, 5, -32),
    line!(4, 5, 0),
    line!(5, 5, 32),
    line!(5, 6, 64),
    line!(4, 7, 128),
    line!(3, 8, 256),
    line!(3, 9, 512),
    line!(3, 10, 1024),
    line!(lower 5, -1025),
    line!(upper 5, 2048),
];

/// B.8
const TABLE_H: [TableLine; 21] = [
    line!(8, 3, -15),
    line!(9, 1, -7),
    line!(8, 1, -5),
    line!(9, 0, -3),
    line!(7, 0, -2),
    line!(4, 0, -1),
    line!(2, 1, 0),
    line!(5, 0, 2),
    line!(6, 0, 3),
    line!(3, 4, 4),
    line!(6, 1, 20),
    line!(4, 4, 22),
    line!(4, 5, 38),
    line!(5, 6, 70),
    line!(5, 7, 134),
    line!(6, 7, 262),
    line!(7, 8, 390),
    line!(6, 10, 646),
    line!(lower 9, -16),
    line!(upper 9, 1670),
    line!(oob 2),
];

/// B.9
const TABLE_I: [TableLine; 22] = [
    line!(8, 4, -31),
    line!(9, 2, -15),
    line!(8, 2, -11),
    line!(9, 1, -7),
    line!(7, 1, -5),
    line!(4, 1, -3),
    line!(3, 1, -1),
    line!(3, 1, 1),
    line!(5, 1, 3),
    line!(6, 1, 5),
    line!(3, 5, 7),
    line!(6, 2, 39),
    line!(4, 5, 43),
    line!(4, 6, 75),
    line!(5, 7, 139),
    line!(5, 8, 267),
    line!(6, 8, 523),
    line!(7, 9, 779),
    line!(6, 11, 1291),
    line!(lower 9, -32),
    line!(upper 9, 3339),
    line!(oob 2),
];

/// B.10
const TABLE_J: [TableLine; 21] = [
    line!(7, 4, -21),
    line!(8, 0, -5),
    line!(7, 0, -4),
    line!(5, 0, -3),
    line!(2, 2, -2),
    line!(5, 0, 2),
    line!(6, 0, 3),
    line!(7, 0, 4),
    line!(8, 0, 5),
    line!(2, 6, 6),
    line!(5, 5, 70),
    line!(6, 5, 102),
    line!(6, 6, 134),
    line!(6, 7, 198),
    line!(6, 8, 326),
    line!(6, 9, 582),
    line!(6, 10, 1094),
    line!(7, 11, 2118),
    line!(lower 8, -22),
    line!(upper 8, 4166),
    line!(oob 2),
];

/// B.11
const TABLE_K: [TableLine; 13] = [
    line!(1, 0, 1),
    line!(2, 1, 2),
    line!(4, 0, 4),
    line!(4, 1, 5),
    line!(5, 1, 7),
    line!(5, 2, 9),
    line!(6, 2, 13),
    line!(7, 2, 17),
    line!(7, 3, 21),
    line!(7, 4, 29),
    line!(7, 5, 45),
    line!(7, 6, 77),
    line!(upper 7, 141),
];

/// B.12
const TABLE_L: [TableLine; 13] = [
    line!(1, 0, 1),
    line!(2, 0, 2),
    line!(3, 1, 3),
    line!(5, 0, 5),
    line!(5, 1, 6),
    line!(6, 1, 8),
    line!(7, 0, 10),
    line!(7, 1, 11),
    line!(7, 2, 13),
    line!(7, 3, 17),
    line!(7, 4, 25),
    line!(8, 5, 41),
    line!(upper 8, 73),
];

/// B.13
const TABLE_M: [TableLine; 13] = [
    line!(1, 0, 1),
    line!(3, 0, 2),
    line!(4, 0, 3),
    line!(5, 0, 4),
    line!(4, 1, 5),
    line!(3, 3, 7),
    line!(6, 1, 15),
    line!(6, 2, 17),
    line!(6, 3, 21),
    line!(6, 4, 29),
    line!(6, 5, 45),
    line!(7, 6, 77),
    line!(upper 7, 141),
];

/// B.14
const TABLE_N: [TableLine; 5] = [
    line!(3, 0, -2),
    line!(3, 0, -1),
    line!(1, 0, 0),
    line!(3, 0, 1),
    line!(3, 0, 2),
];

/// B.15
const TABLE_O: [TableLine; 13] = [
    line!(7, 4, -24),
    line!(6, 2, -8),
    line!(5, 1, -4),
    line!(4, 0, -2),
    line!(3, 0, -1),
    line!(1, 0, 0),
    line!(3, 0, 1),
    line!(4, 0, 2),
    line!(5, 1, 3),
    line!(6, 2, 5),
    line!(7, 4, 9),
    line!(lower 7, -25),
    line!(upper 7, 25),
];

/// The tables B.1 to B.15.
#[derive(Drop)]
pub struct StandardHuffmanTables<A: Allocator> {
    tables: Vec<HuffmanTable<A>, A>,
}

impl<A: Allocator> Model for StandardHuffmanTables<A> {
    ghost use Rattle.std.specs.Prelude.{◌≡◌};
    ghost use Rattle.jbig2_coder.specs.Tables.{standard_codes};

    ghost Value = { Unit {0} };

    ghost view = { λ _. tt };

    ghost invariant = { λ t. t.tables.items ≡ standard_codes };
}

impl<A: Allocator + Clone> StandardHuffmanTables<A> {
    /// Builds all fifteen tables. Only a lack of memory makes it fail.
    pub fn new(alloc: A) -> Result<StandardHuffmanTables<A>>
        ensures { IfErr result (λ e. e ≡ DecodeError.OutOfMemory) }
    {
        let mut tables = Vec::with_capacity(alloc.clone()?, 15)?;
        for index in 0..15 {
            tables.push(HuffmanTable::build(alloc.clone()?, standard_lines(index))?)?;
        }
        Ok(StandardHuffmanTables { tables })
    }
}

#[tactic(auto, unfolding(crate::specs::Tables::standard_tables))]
impl<A: Allocator> StandardHuffmanTables<A> {
    /// The table at this place in the list from B.1 to B.15.
    fn table(&self, index: usize) -> &HuffmanTable<A>
        requires { index < 15 }
        ensures { result.now ≡ prefix_code (slice_index_or standard_tables index []) }
    {
        &self.tables[index]
    }

    /// B.1
    pub fn table_a(&self) -> &HuffmanTable<A>
        ensures { result.now ≡ prefix_code lines_a }
    {
        self.table(0)
    }

    /// B.2
    pub fn table_b(&self) -> &HuffmanTable<A>
        ensures { result.now ≡ prefix_code lines_b }
    {
        self.table(1)
    }

    /// B.3
    pub fn table_c(&self) -> &HuffmanTable<A>
        ensures { result.now ≡ prefix_code lines_c }
    {
        self.table(2)
    }

    /// B.4
    pub fn table_d(&self) -> &HuffmanTable<A>
        ensures { result.now ≡ prefix_code lines_d }
    {
        self.table(3)
    }

    /// B.5
    pub fn table_e(&self) -> &HuffmanTable<A>
        ensures { result.now ≡ prefix_code lines_e }
    {
        self.table(4)
    }

    /// B.6
    pub fn table_f(&self) -> &HuffmanTable<A>
        ensures { result.now ≡ prefix_code lines_f }
    {
        self.table(5)
    }

    /// B.7
    pub fn table_g(&self) -> &HuffmanTable<A>
        ensures { result.now ≡ prefix_code lines_g }
    {
        self.table(6)
    }

    /// B.8
    pub fn table_h(&self) -> &HuffmanTable<A>
        ensures { result.now ≡ prefix_code lines_h }
    {
        self.table(7)
    }

    /// B.9
    pub fn table_i(&self) -> &HuffmanTable<A>
        ensures { result.now ≡ prefix_code lines_i }
    {
        self.table(8)
    }

    /// B.10
    pub fn table_j(&self) -> &HuffmanTable<A>
        ensures { result.now ≡ prefix_code lines_j }
    {
        self.table(9)
    }

    /// B.11
    pub fn table_k(&self) -> &HuffmanTable<A>
        ensures { result.now ≡ prefix_code lines_k }
    {
        self.table(10)
    }

    /// B.12
    pub fn table_l(&self) -> &HuffmanTable<A>
        ensures { result.now ≡ prefix_code lines_l }
    {
        self.table(11)
    }

    /// B.13
    pub fn table_m(&self) -> &HuffmanTable<A>
        ensures { result.now ≡ prefix_code lines_m }
    {
        self.table(12)
    }

    /// B.14
    pub fn table_n(&self) -> &HuffmanTable<A>
        ensures { result.now ≡ prefix_code lines_n }
    {
        self.table(13)
    }

    /// B.15
    pub fn table_o(&self) -> &HuffmanTable<A>
        ensures { result.now ≡ prefix_code lines_o }
    {
        self.table(14)
    }
}

/// The lines of the table at this place in the list from B.1 to B.15.
pub fn standard_lines(index: usize) -> &'static [TableLine]
    requires { index < 15 }
    ensures { result.now ≡ slice_index_or standard_tables index [] }
{
    match index {
        0 => &TABLE_A,
        1 => &TABLE_B,
        2 => &TABLE_C,
        3 => &TABLE_D,
        4 => &TABLE_E,
        5 => &TABLE_F,
        6 => &TABLE_G,
        7 => &TABLE_H,
        8 => &TABLE_I,
        9 => &TABLE_J,
        10 => &TABLE_K,
        11 => &TABLE_L,
        12 => &TABLE_M,
        13 => &TABLE_N,
        _ => &TABLE_O,
    }
}
