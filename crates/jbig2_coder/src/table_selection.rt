//! Selects the custom tables that a segment refers to (T.88, 7.4.2.1.6 and 7.4.3.1.6).
ghost use Rattle.jbig2_base.specs.Results.{Returns};
ghost use Rattle.jbig2_coder.specs.Tables.{next_custom};
ghost use Rattle.jbig2_coder.specs.inner.TableViews.{customs_view};
ghost use Rattle.jbig2_base.specs.Causes.{HasCause};
ghost use Rattle.jbig2_coder.specs.Causes.{BreaksSelection};

use crate::huffman_table::HuffmanTable;
use jbig2_base::error::{HuffmanError, Result};
use std::alloc::Allocator;

/// The next custom table, and those after it, or `HuffmanError::MissingTables` if there is none.
#[tactic(auto, using(crate::proofs::Causes::selection_cause))]
pub fn next_custom<'a, T: Allocator>(
    customs: &'a [&'a HuffmanTable<T>],
) -> Result<(&'a HuffmanTable<T>, &'a [&'a HuffmanTable<T>])>
    ensures value { let meant = next_custom (customs_view customs.now) in
        Returns (λ t. (t.0.now, customs_view t.1.now)) result meant }
    ensures causes { HasCause result (BreaksSelection (customs_view customs.now)) }
{
    if customs.is_empty() {
        return Err(HuffmanError::MissingTables.into());
    }
    Ok((customs[0], &customs[1..]))
}
