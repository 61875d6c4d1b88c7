ghost use Rattle.std.specs.Prelude.{◌≡◌, ◌↔◌, IsTrue, ◌+◌, ◌<◌, ◌≤◌, [], ◌∷◌, length};
ghost use Rattle.ssap_machine.specs.Heights.{need, Fits};

use crate::Symbol;
use std::marker::Model;

/// What is still to come of a message: symbols, of which the one on top comes next. Contracts see them as a list, the
/// top first. There are at most 16, since each has room above it for what may come in its place.
#[derive(Clone, Copy)]
pub struct Stack {
    symbols: [Symbol; 16],
    height: usize,
}

impl Model for Stack {
    ghost use Rattle.std.specs.Prelude.{◌≡◌, List, ◌≤◌, ◌-◌, ◌++◌, length, take, drop, reverse, replicate};
    ghost use Rattle.ssap_machine.specs.declared.symbol.Symbol.{Symbol};
    ghost use Rattle.ssap_machine.specs.declared.symbol.Symbol.TheVariants.{Message};
    ghost use Rattle.ssap_machine.specs.Heights.{Fits};

    ghost Value = { List Symbol };

    ghost view = { λ s. reverse (take s.height s.symbols) };

    ghost invariant = { λ s. (length s.symbols ≡ 16) × (s.height ≤ 16) × Fits (reverse (take s.height s.symbols))
        × (drop s.height s.symbols ≡ replicate (16 - s.height) Message) };

    ghost inverse = { λ v. record { symbols = reverse v ++ replicate (16 - length v) Message; height = length v } };

    ghost use Rattle.ssap_machine.specs.Spare.{restored, restored_height};

    ghost inverse_ok = { λ s h i. record {
      symbols = restored s.height s.symbols Message h.0 h.1 h.3 i;
      height = restored_height s.height s.symbols h.0 h.1 i;
    } };
}

impl Stack {
    /// A whole message is to come.
    #[tactic(auto, unfolding(crate::specs::Heights::need))]
    pub fn message() -> Stack
        ensures { result ≡ Symbol.Message ∷ [] }
    {
        Stack {
            symbols: [Symbol::Message; 16],
            height: 1,
        }
    }

    /// Whether nothing is to come.
    pub fn is_empty(&self) -> bool
        ensures { IsTrue result ↔ (self.now ≡ []) }
    {
        self.height == 0
    }

    /// Takes the symbol on top.
    pub(crate) fn pop(&mut self) -> Symbol
        requires { 0 < length self.old }
        ensures taken { self.old ≡ result ∷ self.new }
        ensures fits { Fits self.old }
    {
        self.height -= 1;
        let symbol = self.symbols[self.height];
        self.symbols[self.height] = Symbol::Message;
        symbol
    }

    /// Puts a symbol on top.
    pub(crate) fn push(&mut self, symbol: Symbol)
        requires { need symbol + length self.old ≤ 16 }
        ensures { self.new ≡ symbol ∷ self.old }
    {
        self.symbols[self.height] = symbol;
        self.height += 1;
    }
}
