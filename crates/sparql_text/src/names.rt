//! The names of the variables of a query.
ghost use Rattle.std.specs.Prelude.{◌≡◌, OnOk};
ghost use Rattle.std.specs.List.{list_any};
ghost use Rattle.m3_terms.specs.Order.{text_eq};
ghost use Rattle.sparql_text.specs.Naming.{AddsName};

use m3_terms::NoMemory;

/// Whether a name is among others.
fn is_among(names: &[&[u8]], name: &[u8]) -> bool
    ensures { result ≡ list_any (λ known. text_eq known.now name.now) names.now }
{
    names.iter().any(|known| *known == name)
}

/// Adds a name to those of the variables so far, unless it is among them.
pub fn add_name<'a>(names: &mut Vec<&'a [u8]>, name: &'a [u8]) -> Result<(), NoMemory>
    ensures { OnOk result (AddsName names.old.items name.now names.new.items) }
{
    if is_among(names.as_slice(), name) {
        return Ok(());
    }
    names.push(name)?;
    Ok(())
}
