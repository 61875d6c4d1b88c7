ghost use Rattle.std.specs.Prelude.{◌≡◌, ◌<◌, ◌++◌, [], None, IfOk, OnOk, OnErr, nat_lt};
ghost use Rattle.std.specs.List.{prefix_len};
ghost use Rattle.std.specs.Hash as fed;
ghost use Rattle.std.specs.Cmp.{partial_equiv_from_equiv};
ghost use Rattle.std.specs.Cmp.Rules.{hashing};
ghost use Rattle.std.proofs.Common.{rules};
ghost use Rattle.std.specs.List.Sorted.{IsStrictlySortedBy};
ghost use Rattle.sparql_algebra.specs.Solutions.{binding_eq, solution_eq, bound, with_binding, three, var_cmp};
ghost use Rattle.sparql_algebra.specs.Merged.{IsRising};
ghost use Rattle.sparql_algebra.specs.TermSolutions.{id_var};
ghost use Rattle.sparql_algebra.specs.Projected.{is_column, projected};
ghost use Rattle.sparql_algebra.specs.SolutionLaws.{binding_eq_equiv, solution_eq_equiv, solution_input};

use crate::{Var, VarList};
use m3_terms::{NoMemory, TermId};
use smallvec::SmallVec;
use std::alloc::Global;
use std::hash::{Hash, Hasher};
use std::marker::Model;

/// A variable and the number of the term that it is bound to.
#[derive(Clone, Copy, Debug)]
pub struct Binding {
    pub var: Var,
    pub term: TermId,
}

impl Default for Binding {
    fn default() -> Binding {
        Binding {
            var: Var(0),
            term: TermId(0),
        }
    }
}

impl PartialEq for Binding {
    ghost eq = { binding_eq };

    ghost laws = { partial_equiv_from_equiv binding_eq_equiv };

    fn eq(&self, other: &Binding) -> bool {
        self.var.0 == other.var.0 && self.term.0 == other.term.0
    }
}

impl Eq for Binding {
    ghost laws = { binding_eq_equiv };
}

impl Hash for Binding {
    ghost hash_input = { λ b. fed.u8 b.var.0 ++ fed.u32 b.term.0 };

    ghost respects_eq = { Prim.search (hashing, rules) };

    fn hash<H: Hasher>(&self, state: &mut H) {
        state.write_u8(self.var.0);
        state.write_u32(self.term.0);
    }
}

/// A solution mapping (SPARQL 1.1, section 18.1.8) by numbers of terms: each of up to 16 variables is bound to a number or
/// unbound.
///
/// Up to four bindings stand in the mapping itself and take no memory beside it.
#[derive(Debug, Drop)]
pub struct Mapping {
    bindings: SmallVec<Binding, 4>,
}

impl Model for Mapping {
    ghost use Rattle.std.specs.Prelude.{List};
    ghost use Rattle.std.specs.List.Sorted.{IsStrictlySortedBy};
    ghost use Rattle.sparql_algebra.specs.declared.mapping.Binding.{Binding as Bound};
    ghost use Rattle.sparql_algebra.specs.Solutions.{var_cmp};

    ghost Value = { List Bound };

    ghost view = { λ m. m.bindings.items };

    ghost invariant = { λ m. IsStrictlySortedBy var_cmp m.bindings.items };
}

impl Mapping {
    /// The mapping that binds no variable. It takes no memory.
    pub fn new(alloc: Global) -> Mapping
        ensures { result ≡ [] }
    {
        Mapping {
            bindings: SmallVec::new(alloc),
        }
    }

    /// The number that the variable is bound to, or `None` where it is unbound.
    pub fn get(&self, var: Var) -> Option<TermId>
        ensures { result ≡ bound self.now var }
    {
        let mut bindings = self.bindings.as_slice().iter();
        let found = bindings.find(|binding| binding.var.0 == var.0);
        found.map(|binding| binding.term)
    }

    /// The bindings, by rising variable.
    pub fn bindings(&self) -> &[Binding]
        ensures bindings { result.now ≡ self.now }
        ensures rising { IsStrictlySortedBy var_cmp self.now }
    {
        self.bindings.as_slice()
    }

    /// Binds a variable that is unbound.
    pub fn bind(&mut self, var: Var, term: TermId) -> Result<(), NoMemory>
        requires variable { var.0 < 16 }
        requires unbound { bound self.old var ≡ None }
        ensures ok { OnOk result (self.new ≡ with_binding self.old var term) }
        ensures err { OnErr result (self.new ≡ self.old) }
    {
        self.put(Binding { var, term })
    }

    /// The bindings by rising variable.
    pub fn as_slice(&self) -> &[Binding]
        ensures bindings { result.now ≡ self.now }
        ensures rising { IsRising id_var self.now }
    {
        self.bindings.as_slice()
    }

    /// An equal mapping, in memory of its own.
    pub fn copy(&self) -> Result<Mapping, NoMemory>
        ensures equal { IfOk result (λ row. row ≡ self.now) }
        ensures rising { IsRising id_var self.now }
    {
        let alloc = *self.bindings.allocator();
        Ok(Mapping {
            bindings: SmallVec::from_slice(alloc, self.bindings.as_slice())?,
        })
    }

    /// The mapping that binds those of the columns that this one binds, each to its number.
    pub fn project(&self, columns: &VarList) -> Result<Mapping, NoMemory>
        ensures { IfOk result (λ row. row ≡ projected columns.now self.now) }
    {
        let mut bindings = SmallVec::new(*self.bindings.allocator());
        for binding in self.bindings.as_slice() {
            if is_among(columns, binding.var) {
                bindings.push(*binding)?;
            }
        }
        Ok(Mapping { bindings })
    }

    // Puts the binding of a variable that is unbound among the others.
    pub(crate) fn put(&mut self, binding: Binding) -> Result<(), NoMemory>
        requires { bound self.old binding.var ≡ None }
        ensures ok { OnOk result (self.new ≡ with_binding self.old binding.var binding.term) }
        ensures err { OnErr result (self.new ≡ self.old) }
    {
        let at = place(self.bindings.as_slice(), binding.var);
        self.bindings.insert(at, binding)?;
        Ok(())
    }
}

impl Mapping {
    // The mapping that binds the variables 0, 1 and 2 to these numbers.
    pub(crate) fn of_three(
        alloc: Global,
        subject: TermId,
        predicate: TermId,
        object: TermId,
    ) -> Result<Mapping, NoMemory>
        ensures { IfOk result (λ row. row ≡ three subject predicate object) }
    {
        let bindings = [
            Binding {
                var: Var(0),
                term: subject,
            },
            Binding {
                var: Var(1),
                term: predicate,
            },
            Binding {
                var: Var(2),
                term: object,
            },
        ];
        Ok(Mapping {
            bindings: SmallVec::from_slice(alloc, &bindings)?,
        })
    }
}

impl PartialEq for Mapping {
    ghost eq = { solution_eq };

    ghost laws = { partial_equiv_from_equiv solution_eq_equiv };

    fn eq(&self, other: &Mapping) -> bool {
        self.bindings.as_slice() == other.bindings.as_slice()
    }
}

impl Eq for Mapping {
    ghost laws = { solution_eq_equiv };
}

impl Hash for Mapping {
    ghost hash_input = { fed.slice (λ b. fed.u8 b.var.0 ++ fed.u32 b.term.0) };

    ghost respects_eq = { solution_input };

    fn hash<H: Hasher>(&self, state: &mut H) {
        self.bindings.as_slice().hash(state);
    }
}

// Whether a variable is one of some columns.
fn is_among(columns: &VarList, var: Var) -> bool
    ensures { result ≡ is_column columns.now var }
{
    columns.as_slice().iter().any(|column| column.0 == var.0)
}

// How many of the bindings come before that of a variable.
fn place(bindings: &[Binding], var: Var) -> usize
    ensures { result ≡ prefix_len (λ b. nat_lt b.var.0 var.0) bindings.now }
{
    let before = bindings.iter().take_while(|binding| binding.var.0 < var.0);
    before.count()
}
