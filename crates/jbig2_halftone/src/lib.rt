//! Halftone regions and pattern dictionaries of JBIG2 (ITU-T T.88, 6.6, 6.7, 7.4.4, 7.4.5 and Annex
//! C).
#![tactic(auto)]

pub mod gray_scale;
pub mod halftone;
pub mod laws;
pub mod pattern;
