ghost use Rattle.std.specs.Prelude.{◌++◌};
ghost use Rattle.std.specs.Hash as fed;
ghost use Rattle.std.specs.Hash.DefaultHasher as sip;
ghost use Rattle.std.specs.List.{fold};

use std::collections::hash_map::DefaultHasher;
use std::hash::{BuildHasher, Hasher};

/// The keys under which terms are hashed. Whoever does not know them can't pick many terms of one hash.
#[derive(Clone, Copy, Debug)]
pub struct TermKeys {
    pub key0: u64,
    pub key1: u64,
}

impl BuildHasher for TermKeys {
    type Hasher = DefaultHasher;

    ghost build_hasher = { λ keys. fold sip.write sip.initial (fed.u64 keys.key0 ++ fed.u64 keys.key1) };

    fn build_hasher(&self) -> DefaultHasher {
        let mut hasher = DefaultHasher::new();
        hasher.write_u64(self.key0);
        hasher.write_u64(self.key1);
        hasher
    }
}
