//! The rows, one file for each of their families.
pub mod coding;
pub mod files;
pub mod framing;
pub mod generic;
pub mod halftones;
pub mod mmr;
pub mod refinement;
pub mod regions;
pub mod salvage;
pub mod symbols;
pub mod worked;

use crate::case::Row;

/// All rows in the order in which they are run. Each family has a function of its own, so that no
/// proof has to look at all of their bytes at once.
pub fn families() -> [&'static [Row]; 17] {
    [
        worked::rows(),
        framing::rows(),
        regions::rows_2(),
        generic::rows(),
        mmr::rows(),
        coding::tables(),
        refinement::rows(),
        halftones::rows_7(),
        symbols::rows_8(),
        files::rows_9(),
        regions::rows_11(),
        symbols::rows_13(),
        files::rows_13(),
        coding::lists(),
        halftones::rows_15(),
        symbols::rows_16(),
        salvage::rows(),
    ]
}

/// The row with this name, if there is one.
pub fn row_named(name: &str) -> Option<&'static Row> {
    for rows in families() {
        let found = row_among(rows, name);
        if found.is_some() {
            return found;
        }
    }
    None
}

fn row_among(rows: &'static [Row], name: &str) -> Option<&'static Row> {
    for row in rows {
        if row.name == name {
            return Some(row);
        }
    }
    None
}
