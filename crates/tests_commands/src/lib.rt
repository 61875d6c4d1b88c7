//! Tests of the commands round the broker: reports on streams, scripts that are made, and trials.
#![tactic(auto)]

#[cfg(test)]
mod made;
#[cfg(test)]
mod run;
#[cfg(test)]
mod streams;
#[cfg(test)]
mod texts;
#[cfg(test)]
mod trials;
