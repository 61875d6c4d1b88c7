//! A query, token by token.
ghost use Rattle.std.specs.Prelude.{◌≡◌, ◌≤◌, length, Some, None, IfOk, OnOk};
ghost use Rattle.sparql_algebra.specs.declared.pattern.Place.{Place};
ghost use Rattle.sparql_algebra.specs.declared.pattern.PatternTriple.{PatternTriple};
ghost use Rattle.sparql_read.specs.declared.draft.Said.TheVariants as said;
ghost use Rattle.sparql_text.specs.Naming.{texts};
ghost use Rattle.sparql_text.specs.Scope.{as_variable, as_subject, as_verb, as_object};
ghost use Rattle.sparql_text.specs.Values.{token_of};
ghost use Rattle.sparql_read.specs.Scoped.{scope_in};
ghost use Rattle.sparql_read.specs.Drafting.{with_triple, with_subject, with_verb, with_object, with_part, with_selected, same_subject, with_brace, with_end_of_group, blank_condition, with_role, with_element, with_value_token, in_group, in_condition, whole_at, with_closed_condition, with_token, blank_draft, query_in};

use crate::columns::{copy_of_names, with_column, with_variables_if};
use crate::conditions::{blank_condition, in_condition, take_whole};
use crate::draft::{Condition, Draft, Role, Said};
use crate::groups::{around, blank_group, close_into, settle};
use crate::levels::and_of;
use crate::terms::{Names, only_memory, place_of_token, variable_at};
use crate::triples::{subject_of, triple_of, verb_of};
use m3_terms::NoMemory;
use sparql_algebra::{Expr, PatternTriple, Place, Query, Var, VarList};
use sparql_text::{Lexeme, Nested, Word};
use std::alloc::Global;
use std::mem;

/// What was read of a triple pattern is this now.
fn set_said(draft: &mut Draft, said: Said)
    ensures { draft.new ≡ record draft.old { said = said } }
{
    let old = mem::replace(&mut draft.said, said);
    drop(old);
}

/// A triple pattern comes.
fn with_triple(alloc: Global, draft: &mut Draft, triple: PatternTriple) -> Result<(), NoMemory>
    ensures { OnOk result (draft.new ≡ with_triple draft.old triple) }
{
    settle(alloc, &mut draft.group)?;
    with_variables_if(draft.all, &mut draft.columns, &triple)?;
    draft.group.run.push(triple)
}

/// The subject of a triple pattern comes, where a token is one.
fn with_subject(draft: &mut Draft, found: Option<Place>)
    ensures { draft.new ≡ with_subject draft.old found }
{
    match found {
        None => {}
        Some(subject) => set_said(draft, Said::Subject(subject)),
    }
}

/// The verb comes behind a subject.
fn say_verb(part: &mut Said, verb: Place)
    ensures { (subject : Place) → part.old ≡ said.Subject subject → part.new ≡ said.Verb subject verb }
{
    let old = mem::replace(part, Said::Nothing);
    match old {
        Said::Nothing => {}
        Said::Subject(subject) => *part = Said::Verb(subject, verb),
        Said::Verb(_, _) => {}
    }
}

/// The verb comes behind a subject, where a token is one.
fn with_verb(draft: &mut Draft, found: Option<Place>)
    ensures { (subject : Place) → draft.old.said ≡ said.Subject subject → draft.new ≡ with_verb draft.old subject found }
{
    match found {
        None => {}
        Some(verb) => say_verb(&mut draft.said, verb),
    }
}

/// The triple pattern of what was read of it and an object.
fn said_triple(part: &Said, object: Place) -> Result<Option<PatternTriple>, NoMemory>
    ensures { IfOk result (λ found. (subject verb : Place) → part.now ≡ said.Verb subject verb → found ≡ Some (record { subject = subject; predicate = verb; object = object })) }
{
    match part {
        Said::Nothing => Ok(None),
        Said::Subject(_) => Ok(None),
        Said::Verb(subject, verb) => Ok(Some(triple_of(subject, verb, object)?)),
    }
}

/// A triple pattern comes, where there is one.
fn with_triple_of(
    alloc: Global,
    draft: &mut Draft,
    found: Option<PatternTriple>,
) -> Result<(), NoMemory>
    ensures { OnOk result ((triple : PatternTriple) → found ≡ Some triple → draft.new ≡ with_triple draft.old triple) }
{
    match found {
        None => Ok(()),
        Some(triple) => with_triple(alloc, draft, triple),
    }
}

/// The object comes behind a subject and a verb, where a token is one.
fn with_object(alloc: Global, draft: &mut Draft, found: Option<Place>) -> Result<(), NoMemory>
    ensures { OnOk result ((subject verb : Place) → draft.old.said ≡ said.Verb subject verb → draft.new ≡ with_object draft.old subject verb found) }
{
    match found {
        None => Ok(()),
        Some(object) => {
            let triple = said_triple(&draft.said, object)?;
            with_triple_of(alloc, draft, triple)
        }
    }
}

/// A part of a triple pattern comes.
fn with_part(
    alloc: Global,
    names: Names<'_>,
    draft: &mut Draft,
    lexeme: Lexeme<'_>,
) -> Result<(), NoMemory>
    requires { length names.variables.now ≤ 16 }
    ensures { OnOk result (draft.new ≡ with_part (scope_in names.entry) draft.old draft.old.said (token_of lexeme.entry)) }
{
    match draft.said {
        Said::Nothing => {
            let subject = only_memory(subject_of(alloc, names, lexeme))?;
            with_subject(draft, subject);
            Ok(())
        }
        Said::Subject(_) => {
            let verb = only_memory(verb_of(alloc, names, lexeme))?;
            with_verb(draft, verb);
            Ok(())
        }
        Said::Verb(_, _) => {
            let object = only_memory(place_of_token(alloc, names, lexeme))?;
            with_object(alloc, draft, object)
        }
    }
}

/// A variable comes behind SELECT.
fn with_selected(draft: &mut Draft, found: Option<Var>) -> Result<(), NoMemory>
    ensures { OnOk result (draft.new ≡ with_selected draft.old found) }
{
    match found {
        None => Ok(()),
        Some(var) => with_column(&mut draft.columns, var),
    }
}

/// `;` comes.
fn same_subject(said: &mut Said)
    ensures { said.new ≡ same_subject said.old }
{
    let old = mem::replace(said, Said::Nothing);
    match old {
        Said::Nothing => {}
        Said::Subject(subject) => *said = Said::Subject(subject),
        Said::Verb(subject, _) => *said = Said::Subject(subject),
    }
}

/// `{` comes.
fn with_brace(alloc: Global, draft: &mut Draft) -> Result<(), NoMemory>
    ensures { OnOk result (draft.new ≡ with_brace draft.old) }
{
    around(alloc, &mut draft.group)?;
    set_said(draft, Said::Nothing);
    let group = mem::replace(&mut draft.group, blank_group(alloc));
    draft.outer.push(group)
}

/// `}` comes.
fn with_end_of_group(alloc: Global, draft: &mut Draft) -> Result<(), NoMemory>
    ensures { OnOk result (draft.new ≡ with_end_of_group draft.old draft.old.outer) }
{
    match draft.outer.pop() {
        None => Ok(()),
        Some(around) => {
            let mut group = around;
            let done = close_into(alloc, &mut draft.group, &mut group);
            let inner = mem::replace(&mut draft.group, group);
            drop(inner);
            set_said(draft, Said::Nothing);
            done
        }
    }
}

/// How the next group goes into the one that is open.
fn with_role(draft: &mut Draft, role: Role)
    ensures { draft.new ≡ with_role draft.old role }
{
    draft.group.next = role;
    set_said(draft, Said::Nothing);
}

/// FILTER comes.
fn with_filter(alloc: Global, draft: &mut Draft)
    ensures { draft.new ≡ record draft.old { condition = Some blank_condition; said = said.Nothing } }
{
    let old = mem::replace(&mut draft.condition, Some(blank_condition(alloc)));
    drop(old);
    set_said(draft, Said::Nothing);
}

/// A word comes among the elements of a group, or before the first.
fn with_element(
    alloc: Global,
    names: Names<'_>,
    draft: &mut Draft,
    word: Word,
) -> Result<(), NoMemory>
    requires { length names.variables.now ≤ 16 }
    ensures { OnOk result (draft.new ≡ with_element (scope_in names.entry) draft.old word) }
{
    match word {
        Word::OpenBrace => return with_brace(alloc, draft),
        Word::CloseBrace => return with_end_of_group(alloc, draft),
        Word::A => return with_part(alloc, names, draft, Lexeme::Fixed(Word::A)),
        Word::Union => with_role(draft, Role::Union),
        Word::Optional => with_role(draft, Role::Optional),
        Word::Filter => with_filter(alloc, draft),
        Word::Dot => set_said(draft, Said::Nothing),
        Word::Semicolon => same_subject(&mut draft.said),
        Word::Star => draft.all = true,
        _ => {}
    }
    Ok(())
}

/// A token that is no word comes: behind SELECT, or among the elements of a group.
fn with_value_token(
    alloc: Global,
    names: Names<'_>,
    draft: &mut Draft,
    lexeme: Lexeme<'_>,
) -> Result<(), NoMemory>
    requires { length names.variables.now ≤ 16 }
    ensures { OnOk result (draft.new ≡ with_value_token (scope_in names.entry) draft.old draft.old.outer (token_of lexeme.entry)) }
{
    if draft.outer.is_empty() {
        with_selected(draft, variable_at(names, lexeme))
    } else {
        with_part(alloc, names, draft, lexeme)
    }
}

/// A token comes outside of conditions.
fn in_group(
    alloc: Global,
    names: Names<'_>,
    draft: &mut Draft,
    lexeme: Lexeme<'_>,
) -> Result<(), NoMemory>
    requires { length names.variables.now ≤ 16 }
    ensures { OnOk result (draft.new ≡ in_group (scope_in names.entry) draft.old (token_of lexeme.entry)) }
{
    match lexeme {
        Lexeme::Fixed(word) => with_element(alloc, names, draft, word),
        Lexeme::Iri(_) | Lexeme::Name { .. } | Lexeme::Variable(_) | Lexeme::String(_) => {
            with_value_token(alloc, names, draft, lexeme)
        }
    }
}

/// A token comes in a condition, which is taken out of it where it is whole.
fn go_on(
    alloc: Global,
    names: Names<'_>,
    condition: &mut Condition,
    lexeme: Lexeme<'_>,
) -> Result<Option<Expr>, NoMemory>
    requires { length names.variables.now ≤ 16 }
    ensures { IfOk result (λ whole. let now = in_condition (scope_in names.entry) condition.old (token_of lexeme.entry) in (whole ≡ whole_at now.outer now.level.latest) × (whole ≡ None → condition.new ≡ now)) }
{
    in_condition(alloc, names, condition, lexeme)?;
    Ok(take_whole(condition))
}

/// The condition that is open is one of the group's, where it is whole.
fn with_closed_condition(
    alloc: Global,
    draft: &mut Draft,
    whole: Option<Expr>,
) -> Result<(), NoMemory>
    ensures { OnOk result (draft.new ≡ with_closed_condition draft.old whole) }
{
    match whole {
        None => Ok(()),
        Some(e) => {
            let old = draft.condition.take();
            drop(old);
            draft.group.conditions = and_of(alloc, draft.group.conditions.take(), Some(e))?;
            Ok(())
        }
    }
}

impl Draft {
    /// Before the first token. It takes no memory.
    pub(crate) fn new(alloc: Global) -> Draft
        ensures { result ≡ blank_draft }
    {
        Draft {
            group: blank_group(alloc),
            outer: Nested::new(alloc),
            condition: None,
            said: Said::Nothing,
            columns: VarList::new(alloc),
            all: false,
        }
    }

    /// One more token comes.
    pub(crate) fn take(
        &mut self,
        alloc: Global,
        names: Names<'_>,
        lexeme: Lexeme<'_>,
    ) -> Result<(), NoMemory>
        requires { length names.variables.now ≤ 16 }
        ensures { OnOk result (self.new ≡ with_token (scope_in names.entry) self.old (token_of lexeme.entry)) }
    {
        match &mut self.condition {
            None => in_group(alloc, names, self, lexeme),
            Some(condition) => {
                let whole = go_on(alloc, names, condition, lexeme)?;
                with_closed_condition(alloc, self, whole)
            }
        }
    }

    /// Takes out the query that the draft is, where its outermost group was read.
    pub(crate) fn query(
        &mut self,
        alloc: Global,
        names: Names<'_>,
    ) -> Result<Option<Query>, NoMemory>
        ensures { IfOk result (λ query. query ≡ query_in (texts names.entry.variables.now) self.old.columns self.old.group.alternatives) }
    {
        let copy = copy_of_names(alloc, names.variables)?;
        match self.group.alternatives.take() {
            None => Ok(None),
            Some(pattern) => Ok(Some(Query {
                names: copy,
                columns: mem::replace(&mut self.columns, VarList::new(alloc)),
                pattern,
            })),
        }
    }
}
