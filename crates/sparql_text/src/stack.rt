ghost use Rattle.std.specs.Prelude.{◌≡◌, ◌∷◌, ◌++◌, [], IsTrue, ◌↔◌, Some, None, OnOk, IfOk};
ghost use Rattle.sparql_text.specs.Machine.{take_one};
ghost use Rattle.sparql_text.specs.Stepping.{Takes};

use crate::step::step;
use crate::{Kind, Nested, Symbol};
use m3_terms::NoMemory;
use std::alloc::Global;
use std::marker::Model;

/// What is still to come of a query. Contracts see the symbols as a list, the first to come first.
#[derive(Drop)]
pub(crate) struct Stack {
    symbols: Nested<Symbol>,
}

impl Model for Stack {
    ghost use Rattle.std.specs.Prelude.{List};
    ghost use Rattle.sparql_text.specs.declared.symbol.Symbol.{Symbol};

    ghost Value = { List Symbol };

    ghost view = { λ s. s.symbols };
}

impl Stack {
    /// A whole query is to come.
    pub fn query(alloc: Global) -> Result<Stack, NoMemory>
        ensures { IfOk result (λ stack. stack ≡ Symbol.Start ∷ []) }
    {
        let mut symbols = Nested::new(alloc);
        symbols.push(Symbol::Start)?;
        Ok(Stack { symbols })
    }

    /// Whether nothing is to come.
    pub fn is_empty(&self) -> bool
        ensures { IsTrue result ↔ (self.now ≡ []) }
    {
        self.symbols.is_empty()
    }

    /// Puts symbols before those that are to come.
    fn push_all(&mut self, pushed: &[Symbol]) -> Result<(), NoMemory>
        ensures { OnOk result (self.new ≡ pushed.now ++ self.old) }
    {
        let mut left = pushed;
        'symbols: while let Some((last, front)) = left.split_last() {
            self.symbols.push(*last)?;
            left = front;
        }
        Ok(())
    }

    /// Whether the first symbol takes a token of this kind; if so, others then stand in its place. After `false` or an
    /// error the stack is of no use.
    pub fn take(&mut self, kind: Kind) -> Result<bool, NoMemory>
        ensures { IfOk result (Takes self.old kind self.new) }
    {
        let Some(symbol) = self.symbols.pop() else {
            return Ok(false);
        };
        match step(symbol, kind) {
            Some(pushed) => {
                self.push_all(pushed)?;
                Ok(true)
            }
            None => Ok(false),
        }
    }
}
