//! Tests of the library crates through their public calls, a module for each crate. They test what no worked row shows,
//! and use test vectors from other sources.
//!
//! `rt try --test --fail-alloc N` in this crate's folder runs these tests with the Nth request for memory refused. In a
//! test's run at most one is refused. Then the test tries the call again, or ends there.
#![tactic(auto)]

#[cfg(test)]
mod base;
#[cfg(test)]
mod coder;
#[cfg(test)]
mod framing;
#[cfg(test)]
mod halftone;
#[cfg(test)]
mod mmr;
#[cfg(test)]
mod pictures;
#[cfg(test)]
mod region;
#[cfg(test)]
mod steps;
#[cfg(test)]
mod symbol;
#[cfg(test)]
mod text;
