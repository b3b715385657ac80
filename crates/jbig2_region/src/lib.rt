//! Regions of JBIG2 (ITU-T T.88, 6.2, 6.3, 7.4.1, 7.4.6 and 7.4.7).
#![tactic(auto)]

pub mod decoded_region;
pub mod generic;
mod generic_coding;
mod generic_kernel;
pub mod generic_refinement;
mod pixel_context;
pub mod raster;
pub mod reference_bitmap;
mod refinement_coding;
mod refinement_kernel;
pub mod region_info;
mod row_decision;
pub mod skipping;
pub mod template;
