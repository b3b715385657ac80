//! The place of the next instance of a text region (T.88, 6.4.5).

/// The place of the next instance: the T of its strip (STRIPT), the first S of the strip (FIRSTS),
/// and its own S (CURS).
#[derive(Clone, Copy, Debug)]
pub struct Cursor {
    pub strip_t: i32,
    pub first_s: i32,
    pub cur_s: i32,
}
