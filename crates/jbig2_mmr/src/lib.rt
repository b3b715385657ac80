//! MMR data: bitmaps coded by ITU-T T.6 in the profile of JBIG2 (ITU-T T.88, 6.2.6).
#![tactic(auto)]

pub mod mmr;
