use crate::{Body, Heads, Params};
use m3_terms::Text;

/// A named parameter of a message, perhaps with the encoding of its body.
#[derive(Debug, Drop)]
pub struct Param {
    pub name: Text,
    pub encoding: Option<Text>,
    pub body: Body,
}

/// A message as a value: its heads, and its parameters in their order.
#[derive(Debug, Drop)]
pub struct Envelope {
    pub heads: Heads,
    pub params: Params,
}
