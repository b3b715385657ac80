//! The probability states of the adaptive coder (T.88, Table E.1).

ghost use Rattle.std.specs.Prelude.{◌≡◌, ◌/◌, ◌<◌, ◌≤◌};
ghost use Rattle.jbig2_coder.specs.QeTable.{qe_row};
ghost use Rattle.jbig2_coder.specs.Coder.{likely_next, unlikely_next};
ghost use Rattle.jbig2_coder.specs.inner.States.{context_in_state};

/// The data of a state: the probability of the less likely symbol, and the next state after the
/// more and after the less likely one. A state is twice the row of Table E.1, plus 1 if 1 is the
/// more likely symbol.
#[derive(Clone, Copy)]
pub struct State {
    pub qe: u32,
    pub likely: u8,
    pub unlikely: u8,
}

/// Both states of each row, from the rows as Table E.1 prints them: Qe, NMPS, NLPS and SWITCH.
macro_rules! states {
    ($(($qe:expr, $nmps:expr, $nlps:expr, $switch:expr),)*) => {
        [
            $(
                State {
                    qe: $qe,
                    likely: 2 * $nmps,
                    unlikely: 2 * $nlps + $switch,
                },
                State {
                    qe: $qe,
                    likely: 2 * $nmps + 1,
                    unlikely: 2 * $nlps + 1 - $switch,
                },
            )*
        ]
    };
}

static STATES: [State; 94] = states![
    (0x5601, 1, 1, 1),
    (0x3401, 2, 6, 0),
    (0x1801, 3, 9, 0),
    (0x0AC1, 4, 12, 0),
    (0x0521, 5, 29, 0),
    (0x0221, 38, 33, 0),
    (0x5601, 7, 6, 1),
    (0x5401, 8, 14, 0),
    (0x4801, 9, 14, 0),
    (0x3801, 10, 14, 0),
    (0x3001, 11, 17, 0),
    (0x2401, 12, 18, 0),
    (0x1C01, 13, 20, 0),
    (0x1601, 29, 21, 0),
    (0x5601, 15, 14, 1),
    (0x5401, 16, 14, 0),
    (0x5101, 17, 15, 0),
    (0x4801, 18, 16, 0),
    (0x3801, 19, 17, 0),
    (0x3401, 20, 18, 0),
    (0x3001, 21, 19, 0),
    (0x2801, 22, 19, 0),
    (0x2401, 23, 20, 0),
    (0x2201, 24, 21, 0),
    (0x1C01, 25, 22, 0),
    (0x1801, 26, 23, 0),
    (0x1601, 27, 24, 0),
    (0x1401, 28, 25, 0),
    (0x1201, 29, 26, 0),
    (0x1101, 30, 27, 0),
    (0x0AC1, 31, 28, 0),
    (0x09C1, 32, 29, 0),
    (0x08A1, 33, 30, 0),
    (0x0521, 34, 31, 0),
    (0x0441, 35, 32, 0),
    (0x02A1, 36, 33, 0),
    (0x0221, 37, 34, 0),
    (0x0141, 38, 35, 0),
    (0x0111, 39, 36, 0),
    (0x0085, 40, 37, 0),
    (0x0049, 41, 38, 0),
    (0x0025, 42, 39, 0),
    (0x0015, 43, 40, 0),
    (0x0009, 44, 41, 0),
    (0x0005, 45, 42, 0),
    (0x0001, 45, 43, 0),
    (0x5601, 46, 46, 0),
];

/// The data of state `index`.
#[inline(always)]
pub(crate) fn state_at(index: u8) -> State
    requires { index < 94 }
    ensures qe { result.qe ≡ (qe_row (index / 2)).qe }
    ensures likely { context_in_state result.likely ≡ likely_next (context_in_state index) }
    ensures unlikely { context_in_state result.unlikely ≡ unlikely_next (context_in_state index) }
    ensures some { 1 ≤ result.qe }
    ensures half { result.qe ≤ 0x5601 }
    ensures likely_state { result.likely < 94 }
    ensures unlikely_state { result.unlikely < 94 }
{
    STATES[index as usize]
}
