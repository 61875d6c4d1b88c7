//! Laws of tables that grow.
ghost use Rattle.m3_intern.specs.Laws.{LongerTablesExtend, NumbersStay, TermsAreFound};

/// What a number means in a table it means in a longer one.
pub fn longer_tables_extend()
    ensures { LongerTablesExtend }
{}

/// A number that a table gave for a term is what each table that extends it gives, so rows and answers that were made
/// under the one can be read under the other.
pub fn numbers_stay()
    ensures { NumbersStay }
{}

/// A table gives a number for exactly the terms that it holds.
pub fn terms_are_found()
    ensures { TermsAreFound }
{}
