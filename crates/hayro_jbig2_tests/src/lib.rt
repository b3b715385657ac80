//! Tests of the root, of the programs and of the callers, through the public calls of their libraries.
//!
//! `rt try --test --fail-alloc N` in this crate's folder runs these tests with the Nth request for memory refused. In a
//! test's run at most one is refused. Then the test tries the call again, or goes on without it.
#![tactic(auto)]

#[cfg(test)]
mod bytes;
#[cfg(test)]
mod callers;
#[cfg(test)]
mod commands;
#[cfg(test)]
mod dropped_limits;
#[cfg(test)]
mod large;
#[cfg(test)]
mod limits;
#[cfg(test)]
mod lists;
#[cfg(test)]
mod outputs;
#[cfg(test)]
mod passed_over;
#[cfg(test)]
mod readers;
#[cfg(test)]
mod refused;
#[cfg(test)]
mod replaced;
#[cfg(test)]
mod sizes;
#[cfg(test)]
mod streams;
