//! Tests of the lowest crates: texts and terms, sources and sinks, links, scripts.
#![tactic(auto)]

#[cfg(test)]
mod algebra;
#[cfg(test)]
mod index;
#[cfg(test)]
mod interner;
#[cfg(test)]
mod joins;
#[cfg(test)]
mod links;
#[cfg(test)]
mod outside;
#[cfg(test)]
mod queries;
#[cfg(test)]
mod scripts;
#[cfg(test)]
mod standing;
#[cfg(test)]
mod terms;
mod texts;
