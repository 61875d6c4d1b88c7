//! Rows gathered into a list, each once.
ghost use Rattle.std.specs.Prelude.{◌≡◌, ◌≤◌, IfErr, OnOk, length};

use crate::{IdRows, Mapping};
use m3_terms::NoMemory;

/// Why rows are not given.
#[derive(Clone, Copy, Debug, PartialEq, Eq)]
pub enum RowsFault {
    /// There are more than were wanted at most.
    TooMany,
    /// Out of memory.
    NoMemory,
}

impl From<NoMemory> for RowsFault {
    ghost use Rattle.sparql_algebra.specs.declared.gather.RowsFault.TheVariants.{NoMemory as Refused};

    ghost from_gives = { λ _ fault. fault ≡ Refused };

    fn from(_refused: NoMemory) -> RowsFault {
        RowsFault::NoMemory
    }
}

impl IdRows {
    ghost use Rattle.sparql_algebra.specs.RowSets.{AreExactly, IsOfOr, IsOfEither, WhyNone};

    // Appends a row unless it is here.
    pub(crate) fn gather(&mut self, row: Mapping) -> Result<(), NoMemory>
        ensures { OnOk result (AreExactly (IsOfOr self.old.rows row) self.new.rows) }
    {
        if self.contains(&row) {
            return Ok(());
        }
        self.add(row)?;
        Ok(())
    }

    /// Appends a row unless it is here. `TooMany` comes exactly where there would be more than `most`.
    pub fn gather_within(&mut self, row: Mapping, most: usize) -> Result<(), RowsFault>
        requires { length self.old.rows ≤ most }
        ensures ok { OnOk result (AreExactly (IsOfOr self.old.rows row) self.new.rows) }
        ensures few { OnOk result (length self.new.rows ≤ most) }
        ensures fault { IfErr result (WhyNone most (IsOfOr self.old.rows row)) }
    {
        if self.contains(&row) {
            return Ok(());
        }
        if self.len() == most {
            return Err(RowsFault::TooMany);
        }
        self.add(row)?;
        Ok(())
    }
}
