//! Codes a bitmap in two dimensions by T.6, as MMR data (ITU-T T.88, 6.2.6). By proof the definition of MMR data reads
//! each bitmap back as it was.
#![tactic(auto)]

mod bitmap;
mod bits;
mod changes;
mod codes;
mod row;

pub use bitmap::coded_mmr;
