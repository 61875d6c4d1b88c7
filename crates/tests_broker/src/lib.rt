//! Tests of the space and of the commands.
#![tactic(auto)]

#[cfg(test)]
mod commands;
#[cfg(test)]
mod space;
#[cfg(test)]
mod vectors;
