//! Tests symbol dictionaries: those of the example of T.88, H.1, and others from the encoder of this repository.
ghost use Rattle.std.specs.Prelude.{◌≡◌, ◌≤◌, length};

use crate::pictures::{A, A_AND_C, C, P, Picture, bitmap_of, shows};
use jbig2_base::bitmap::Bitmap;
use jbig2_base::error::{DecodeError, Result};
use jbig2_base::reader::Reader;
use jbig2_coder::huffman_table::{HuffmanTable, StandardHuffmanTables};
use jbig2_permit::Permit;
use jbig2_region::template::{RefinementTemplate, Template};
use jbig2_steps::{Steps, Work};
use jbig2_symbol::tables::aggregate_tables;
use jbig2_symbol::{HuffmanTableSelection, RetainedContexts, SymbolDictionary, decode, parse};
use std::alloc::Global;
use std::marker::Brand;
use std::sync::ledger::{Blank, Ledger};

/// A dictionary.
struct Case {
    /// The data of its segment.
    data: &'static [u8],
    /// Whether it refers to a dictionary of the symbol `A`.
    refers_to_a: bool,
    /// The symbols that it exports.
    symbols: &'static [Picture],
}

/// The example's dictionaries in their order. The last one comes once more, with prefix codes and with the other
/// template of refinements. Then comes one with empty export runs.
const CASES: &[Case] = &[
    Case {
        data: &[
            0, 1, 0, 0, 0, 1, 0, 0, 0, 1, 0xE9, 0xCB, 0xF4, 0, 0x26, 0xAF, 4, 0xBF, 0xF0, 0x78,
            0x2F, 0xE0, 0, 0x40,
        ],
        refers_to_a: false,
        symbols: &[P],
    },
    Case {
        data: &[
            0, 1, 0, 0, 0, 2, 0, 0, 0, 2, 0xE5, 0xCD, 0xF8, 0, 0x79, 0xE0, 0x84, 0x10, 0x81, 0xF0,
            0x82, 0x10, 0x86, 0x10, 0x79, 0xF0, 0, 0x80,
        ],
        refers_to_a: false,
        symbols: &[C, A],
    },
    Case {
        data: &[
            8, 0, 2, 0xFF, 0, 0, 0, 2, 0, 0, 0, 2, 0x4F, 0xE7, 0x8C, 0x20, 0x0E, 0x1D, 0xC7, 0xCF,
            1, 0x11, 0xC4, 0xB2, 0x6F, 0xFF, 0xAC,
        ],
        refers_to_a: false,
        symbols: &[C, A],
    },
    Case {
        data: &[
            8, 0, 2, 0xFF, 0, 0, 0, 1, 0, 0, 0, 1, 0x4F, 0xE7, 0x8D, 0x68, 0x1B, 0x14, 0x2F, 0x3F,
            0xFF, 0xAC,
        ],
        refers_to_a: false,
        symbols: &[A],
    },
    Case {
        data: WITH_AGGREGATES,
        refers_to_a: true,
        symbols: &[A, C, A_AND_C],
    },
    Case {
        data: &[
            0x10, 3, 0, 0, 0, 3, 0, 0, 0, 2, 0xE5, 0xCC, 0x20, 0x60, 0x15, 0x0E, 0x3B, 0x2E, 0xFF,
            0xAC, 0xEA, 0x20, 0, 0x3A, 0x4F, 0xE0, 0x18,
        ],
        refers_to_a: true,
        symbols: &[A, C, A_AND_C],
    },
    Case {
        data: EMPTY_RUNS,
        refers_to_a: true,
        symbols: &[A, C],
    },
];

/// The new symbols `C` and `P`. The export runs are of 0, 0, 0, 1, 0, 1 and 1 symbols: `P` is left out.
const EMPTY_RUNS: &[u8] = &[
    0, 1, 0, 0, 0, 2, 0, 0, 0, 2, 0xE5, 0xCF, 0xF0, 0, 0x78, 0x84, 0x80, 0x80, 0x84, 0x78, 0xB9,
    0x7E, 0, 0xF0, 0x88, 0x88, 0x88, 0xF0, 0x80, 0x80, 0x80, 0, 0, 0x10, 4, 0x20,
];

/// One symbol that refines `A`, and one that is aggregated.
const WITH_AGGREGATES: &[u8] = &[
    8, 2, 2, 0xFF, 0xFF, 0xFF, 0xFF, 0xFF, 0, 0, 0, 3, 0, 0, 0, 2, 0x4F, 0xE9, 0xD7, 0xD5, 0x90,
    0xC3, 0xB5, 0x26, 0xA7, 0xFB, 0x6D, 0x14, 0x98, 0x3F, 0xFF, 0xAC,
];

/// The example's dictionary of `C` and `A`, but it keeps its contexts.
const KEEPS_CONTEXTS: &[u8] = &[
    0x0A, 0, 2, 0xFF, 0, 0, 0, 2, 0, 0, 0, 2, 0x4F, 0xE7, 0x8C, 0x20, 0x0E, 0x1D, 0xC7, 0xCF, 1,
    0x11, 0xC4, 0xB2, 0x6F, 0xFF, 0xAC,
];

/// A dictionary of `P` that begins with those contexts.
const USES_CONTEXTS: &[u8] = &[
    9, 0, 2, 0xFF, 0, 0, 0, 1, 0, 0, 0, 1, 0x4A, 0x8C, 0x19, 0x22, 0x87, 0x7C, 0xEE, 0x3F, 0xFF,
    0xAC,
];

/// Decodes the dictionary in a segment's data.
fn dictionary_of<L: Ledger>(
    alloc: Global,
    data: &[u8],
    symbols: &[&Bitmap<Global>],
    contexts: Option<&RetainedContexts<Global>>,
    work: &mut Work<L>,
) -> Result<SymbolDictionary<Global>>
    requires { length symbols.now ≤ 2097152 }
{
    let tables = StandardHuffmanTables::new(alloc)?;
    let customs: [&HuffmanTable<Global>; 0] = [];
    let header = parse(&mut Reader::new(data), true)?;
    decode(alloc, &header, symbols, &customs, &tables, contexts, work)
}

/// Decodes the dictionary of a case.
fn case_of<L: Ledger>(
    alloc: Global,
    case: &Case,
    work: &mut Work<L>,
) -> Result<SymbolDictionary<Global>> {
    if case.refers_to_a {
        let a = bitmap_of(alloc, A, &mut work.steps)?;
        return dictionary_of(alloc, case.data, &[&a], None, work);
    }
    dictionary_of(alloc, case.data, &[], None, work)
}

/// Whether a dictionary exports these symbols.
fn exports_symbols<L: Ledger>(
    dictionary: &SymbolDictionary<Global>,
    symbols: &[Picture],
    steps: &mut Steps<L>,
) -> bool {
    for (symbol, picture) in dictionary.exported_symbols.iter().zip(symbols) {
        if !shows(symbol, picture, steps) {
            return false;
        }
    }
    dictionary.exported_symbols.len() == symbols.len()
}

/// The index of the first case whose symbols differ, or else the number of cases.
fn first_that_differs<L: Ledger>(alloc: Global, blank: Blank) -> Result<usize>
    requires name { blank.name ≡ L.name }
    requires parts { blank.parts ≡ L.parts }
    requires enough { blank.parts ≡ 7 }
{
    let mut work: Work<L> = Work::new(Permit::grant(), blank);
    for (index, case) in CASES.iter().enumerate() {
        let dictionary = case_of(alloc, case, &mut work)?;
        if !exports_symbols(&dictionary, case.symbols, &mut work.steps) {
            return Ok(index);
        }
    }
    Ok(CASES.len())
}

#[test]
fn symbols_of_the_example(rt: HostRuntime) {
    let mut index = first_that_differs::<Brand>(rt.alloc(), Blank::new(7));
    if index == Err(DecodeError::OutOfMemory) {
        index = first_that_differs::<Brand>(rt.alloc(), Blank::new(7));
    }
    assert!(rt; index == Ok(CASES.len()));
}

/// Whether another dictionary can begin with the contexts that a dictionary keeps.
fn contexts_go_on<L: Ledger>(alloc: Global, blank: Blank) -> Result<bool>
    requires name { blank.name ≡ L.name }
    requires parts { blank.parts ≡ L.parts }
    requires enough { blank.parts ≡ 7 }
{
    let mut work: Work<L> = Work::new(Permit::grant(), blank);
    let first = dictionary_of(alloc, KEEPS_CONTEXTS, &[], None, &mut work)?;
    let contexts = first.retained_contexts.as_ref();
    let second = dictionary_of(alloc, USES_CONTEXTS, &[], contexts, &mut work)?;
    Ok(
        exports_symbols(&first, &[C, A], &mut work.steps)
            && exports_symbols(&second, &[P], &mut work.steps),
    )
}

#[test]
fn contexts_that_are_kept(rt: HostRuntime) {
    let mut go_on = contexts_go_on::<Brand>(rt.alloc(), Blank::new(7));
    if go_on == Err(DecodeError::OutOfMemory) {
        go_on = contexts_go_on::<Brand>(rt.alloc(), Blank::new(7));
    }
    assert!(rt; go_on == Ok(true));
}

/// Whether numbers are those of the tables of aggregate symbols (T.88, Table 17): B.8, B.11 and B.1.
fn numbers_hold(alloc: Global) -> Result<bool> {
    let standard = StandardHuffmanTables::new(alloc)?;
    let tables = aggregate_tables(&standard);
    let numbers = [
        tables
            .delta_s
            .decode_no_oob(&mut Reader::new(&[0xFE, 0x80]))?,
        tables.delta_t.decode_no_oob(&mut Reader::new(&[0]))?,
        tables
            .refinement_size
            .decode_no_oob(&mut Reader::new(&[0b00101000]))?,
    ];
    Ok(numbers == [-3, 1, 5])
}

#[test]
fn numbers_of_aggregates(rt: HostRuntime) {
    let mut hold = numbers_hold(rt.alloc());
    if hold == Err(DecodeError::OutOfMemory) {
        hold = numbers_hold(rt.alloc());
    }
    assert!(rt; hold == Ok(true));
}

#[test]
fn header_of_the_example(rt: HostRuntime) {
    let Ok(header) = parse(&mut Reader::new(WITH_AGGREGATES), true) else {
        assert!(rt; false);
        return;
    };
    let flags = &header.flags;
    assert!(rt; !flags.use_huffman && flags.use_refagg);
    assert!(rt; !flags.bitmap_context_used && !flags.bitmap_context_retained);
    assert!(rt; flags.delta_height_table == HuffmanTableSelection::TableB4);
    assert!(rt; flags.template == Template::Template2);
    assert!(rt; flags.refinement_template == RefinementTemplate::Template0);
    let pixel = header.adaptive_template_pixels[0];
    let [first, second] = header.refinement_at_pixels;
    let places = [pixel.x, pixel.y, first.x, first.y, second.x, second.y];
    assert!(rt; places == [2, -1, -1, -1, -1, -1]);
    assert!(rt; header.num_exported_symbols == 3 && header.num_new_symbols == 2);
}
