//! Compatible mappings and their merge.
ghost use Rattle.std.specs.Prelude.{◌≡◌, ◌↔◌, IsTrue, IfOk};
ghost use Rattle.sparql_algebra.specs.TermSolutions.{IdCompatible, id_merge};
ghost use Rattle.sparql_algebra.specs.Agrees.{agrees_with, agree};

use crate::{Binding, Mapping};
use m3_terms::{NoMemory, TermId};

impl Mapping {
    /// Whether each variable that both mappings bind is bound to one number in both. It takes no memory.
    pub fn compatible(&self, other: &Mapping) -> bool
        ensures { IsTrue result ↔ IdCompatible self.now other.now }
    {
        all_agree(self.as_slice(), other)
    }

    /// The mapping that binds what either of two compatible mappings binds.
    pub fn merge(&self, other: &Mapping) -> Result<Mapping, NoMemory>
        requires { IdCompatible self.now other.now }
        ensures { IfOk result (λ row. row ≡ id_merge self.now other.now) }
    {
        let mut merged = other.copy()?;
        for binding in self.as_slice() {
            if merged.get(binding.var).is_none() {
                merged.put(*binding)?;
            }
        }
        Ok(merged)
    }
}

// Whether no binding has another number in the mapping.
fn all_agree(bindings: &[Binding], other: &Mapping) -> bool
    ensures { result ≡ agree bindings.now other.now }
{
    bindings
        .iter()
        .all(|binding| agrees(binding, other.get(binding.var)))
}

// Whether a number that there may be is that of the binding.
fn agrees(binding: &Binding, other: Option<TermId>) -> bool
    ensures { result ≡ agrees_with binding.now other }
{
    match other {
        None => true,
        Some(term) => term.0 == binding.term.0,
    }
}
