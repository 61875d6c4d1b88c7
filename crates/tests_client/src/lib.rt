//! Tests of a client: what it asks, what it is told, and the answer that it keeps. Tests of requests made in large numbers.
#![tactic(auto)]

#[cfg(test)]
mod asked;
#[cfg(test)]
mod made;
#[cfg(test)]
mod mirrored;
#[cfg(test)]
mod told;
