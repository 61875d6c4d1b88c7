//! The parameters of a message from a broker, read one by one.
ghost use Rattle.std.specs.Prelude.{◌≡◌, ◌^◌, ◌<◌, ℕ, Some, IfOk, MatchOption};
ghost use Rattle.std.specs.Fmt.{decimal};
ghost use Rattle.answer_bodies.specs.Reading.{IsReadAs};
ghost use Rattle.ssap_shape.specs.Replies.{status_word};
ghost use Rattle.ssap_shape.specs.Told.{all_named, IsStatus, IsNumber, StandsOnce, StandsWhere};
ghost use Rattle.ssap_shape.specs.Fields.{IsOnly, IsField, IsOnce};

use crate::Status;
use crate::name::{Name, is_named};
use crate::words::number_text;
use answer_bodies::Answer;
use m3_terms::{NoMemory, Text};
use ssap_items::{Body, Params};
use std::alloc::Global;
use std::str;

/// What a scan for a name finds among parameters: none, the body of one, or that there are more.
#[derive(Clone, Copy)]
pub enum Only<'a> {
    None,
    One(&'a Body),
    More,
}

/// What a parameter of a name stands for: none has the name, or one that can be read, or it can't be read or is doubled.
#[derive(Drop)]
pub enum Field<T: Drop> {
    Missing,
    Value(T),
    Wrong,
}

fn find(params: &Params, name: Name) -> Only<'_>
    ensures { IsOnly (all_named params.now name) result }
{
    let mut found = Only::None;
    for param in params.as_slice() {
        if is_named(param, name) {
            found = match found {
                Only::None => Only::One(&param.body),
                Only::One(_) => Only::More,
                Only::More => Only::More,
            };
        }
    }
    found
}

fn status_of(text: &[u8]) -> Option<Status>
    ensures { MatchOption result ((status : Status) → ¬ (text.now ≡ status_word status)) (λ status. text.now ≡ status_word status) }
{
    if text == Status::Success.as_bytes() {
        Some(Status::Success)
    } else if text == Status::AccessDenied.as_bytes() {
        Some(Status::AccessDenied)
    } else if text == Status::OutOfResources.as_bytes() {
        Some(Status::OutOfResources)
    } else if text == Status::NotImplemented.as_bytes() {
        Some(Status::NotImplemented)
    } else if text == Status::Request.as_bytes() {
        Some(Status::Request)
    } else if text == Status::Incomplete.as_bytes() {
        Some(Status::Incomplete)
    } else if text == Status::Syntax.as_bytes() {
        Some(Status::Syntax)
    } else {
        None
    }
}

fn status_in(body: &Body) -> Option<Status>
    ensures { MatchOption result ((status : Status) → ¬ (IsStatus body.now status)) (IsStatus body.now) }
{
    match body {
        Body::Text(text) => status_of(text.as_bytes()),
        Body::Triples(_) | Body::Table(_) => None,
    }
}

/// The one number of at most 64 bits that a text may be in decimal.
fn parsed(text: &Text) -> Option<u64>
    ensures { (number : ℕ) → text.now ≡ decimal number → number < 2 ^ 64 → result ≡ Some number }
{
    match str::from_utf8(text.as_bytes()) {
        Ok(digits) => digits.parse::<u64>().ok(),
        Err(_) => None,
    }
}

fn number_of(alloc: Global, text: &Text) -> Result<Option<u64>, NoMemory>
    ensures { IfOk result (λ number. MatchOption number ((number : ℕ) → ¬ (IsNumber (Body.Text text.now) number)) (IsNumber (Body.Text text.now))) }
{
    let Some(number) = parsed(text) else {
        return Ok(None);
    };
    if number_text(alloc, number)? == *text {
        Ok(Some(number))
    } else {
        Ok(None)
    }
}

fn number_in(alloc: Global, body: &Body) -> Result<Option<u64>, NoMemory>
    ensures { IfOk result (λ number. MatchOption number ((number : ℕ) → ¬ (IsNumber body.now number)) (IsNumber body.now)) }
{
    match body {
        Body::Text(text) => number_of(alloc, text),
        Body::Triples(_) | Body::Table(_) => Ok(None),
    }
}

/// The status among the parameters, where it stands once.
pub fn status(params: &Params) -> Option<Status>
    ensures { IsOnce IsStatus params.now Name.Status result }
{
    match find(params, Name::Status) {
        Only::None => None,
        Only::One(body) => status_in(body),
        Only::More => None,
    }
}

/// The number of this name among the parameters.
pub fn number(alloc: Global, params: &Params, name: Name) -> Result<Field<u64>, NoMemory>
    ensures { IfOk result (IsField IsNumber params.now name) }
{
    match find(params, name) {
        Only::None => Ok(Field::Missing),
        Only::One(body) => match number_in(alloc, body)? {
            Some(number) => Ok(Field::Value(number)),
            None => Ok(Field::Wrong),
        },
        Only::More => Ok(Field::Wrong),
    }
}

/// The results of this name among the parameters.
pub fn answer(alloc: Global, params: &Params, name: Name) -> Result<Field<Answer>, NoMemory>
    ensures { IfOk result (IsField IsReadAs params.now name) }
{
    match find(params, name) {
        Only::None => Ok(Field::Missing),
        Only::One(body) => match Answer::of_body(alloc, body)? {
            Some(answer) => Ok(Field::Value(answer)),
            None => Ok(Field::Wrong),
        },
        Only::More => Ok(Field::Wrong),
    }
}

/// The number of this name among the parameters, where it stands once.
pub fn once_number(alloc: Global, params: &Params, name: Name) -> Result<Option<u64>, NoMemory>
    ensures { IfOk result (IsOnce IsNumber params.now name) }
{
    match number(alloc, params, name)? {
        Field::Missing => Ok(None),
        Field::Value(number) => Ok(Some(number)),
        Field::Wrong => Ok(None),
    }
}

/// The results of this name among the parameters, where they stand once.
pub fn once_answer(alloc: Global, params: &Params, name: Name) -> Result<Option<Answer>, NoMemory>
    ensures { IfOk result (IsOnce IsReadAs params.now name) }
{
    match answer(alloc, params, name)? {
        Field::Missing => Ok(None),
        Field::Value(answer) => Ok(Some(answer)),
        Field::Wrong => Ok(None),
    }
}
