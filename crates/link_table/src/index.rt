ghost use Rattle.std.specs.Prelude.{◌≡◌, ◌≤◌, ◌<◌, ◌++◌, ◌∷◌, [], OnOk, OnErr};
ghost use Rattle.std.specs.List.{All};
ghost use Rattle.link_table.specs.Index.{RiseFrom, key_of, without, StandsAt};

use m3_terms::NoMemory;
use std::alloc::Global;
use std::marker::Model;

/// The links that count: the number of each with the key of its slot, by rising number.
#[derive(Drop)]
pub struct Index {
    pairs: Vec<(u32, usize)>,
}

impl Model for Index {
    ghost use Rattle.std.specs.Prelude.{ℕ, List};

    ghost Value = { List (ℕ × ℕ) };

    ghost view = { λ i. i.pairs.items };

    ghost use Rattle.link_table.specs.Index.{RiseFrom};

    ghost invariant = { λ i. RiseFrom 1 i.pairs.items };
}

impl Index {
    /// No pairs. It takes no memory.
    pub fn new(alloc: Global) -> Index
        ensures { result ≡ [] }
    {
        Index {
            pairs: Vec::new(alloc),
        }
    }

    /// The pairs, by rising number.
    pub fn pairs(&self) -> &[(u32, usize)]
        ensures value { result.now ≡ self.now }
        ensures rise { RiseFrom 1 self.now }
    {
        &self.pairs
    }

    /// Puts a number that is greater than all others at the end.
    pub fn push(&mut self, number: u32, key: usize) -> Result<(), NoMemory>
        requires positive { 1 ≤ number }
        requires last { All (λ pair. pair.0 < number) self.old }
        ensures ok { OnOk result (self.new ≡ self.old ++ (number, key) ∷ []) }
        ensures err { OnErr result (self.new ≡ self.old) }
    {
        self.pairs.push((number, key))?;
        Ok(())
    }

    /// The key that stands with a number.
    pub fn key_of(&self, number: u32) -> Option<usize>
        ensures { result ≡ key_of self.now number }
    {
        match self.place(number) {
            Some(place) => Some(self.pairs[place].1),
            None => None,
        }
    }

    /// Takes a number out, if it is there. It takes no memory.
    pub fn remove(&mut self, number: u32)
        ensures { self.new ≡ without self.old number }
    {
        if let Some(place) = self.place(number) {
            self.pairs.remove(place);
        }
    }

    // Where a number stands.
    fn place(&self, number: u32) -> Option<usize>
        ensures { StandsAt self.now number result }
    {
        self.pairs.binary_search_by_key(&number, |pair| pair.0).ok()
    }
}
