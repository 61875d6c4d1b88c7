//! Tests of the crates between bytes and requests: reading, decoding and writing of messages, bodies and shapes.
#![tactic(auto)]

#[cfg(test)]
mod bodies;
#[cfg(test)]
mod changes;
#[cfg(test)]
mod decoding;
#[cfg(test)]
mod encoding;
#[cfg(test)]
mod items;
#[cfg(test)]
mod machine;
#[cfg(test)]
mod reading;
#[cfg(test)]
mod reports;
#[cfg(test)]
mod rows;
#[cfg(test)]
mod shapes;
#[cfg(test)]
mod spelled;
#[cfg(test)]
mod text;
