//! Tests of the client's command, over memory and over TCP.
#![tactic(auto)]

#[cfg(test)]
mod loopback;
#[cfg(test)]
mod memory;
#[cfg(test)]
mod messages;
#[cfg(test)]
mod texts;
