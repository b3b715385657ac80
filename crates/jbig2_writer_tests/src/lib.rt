//! Tests of the writer of pages and of MMR data. The writer counts its steps in the counter that it is given, so what
//! makes a counter stands here.
#![tactic(auto)]

#[cfg(test)]
mod mmr;
#[cfg(test)]
mod pages;
