//! Tests of a machine that threads share: one seat after another, and a seat that finds the turn taken.
#![tactic(auto)]

#[cfg(test)]
mod summing;
#[cfg(test)]
mod waiting;
