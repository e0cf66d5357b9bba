//! Requirements.

ghost use Rattle.std.specs.Prelude.{◌≡◌, ◌∷◌, [], option_map};
ghost use Rattle.hb_labels.specs.Reading.{Gives, Puts, after_equal, one_value, values_of, list_within, list_of, list_operator, not_equal, operator_of, missing, keyed, requirement_from, requirement_of, value_of, pieces, each};

use crate::cuts::{cut, name_at, skip, until_close};
use crate::fault::SelectorFault;
use crate::key::{Key, key_at, value_of};
use hb_wire::{Seq, Text};
use std::alloc::Global;

/// What a requirement asks of the labels with its key.
#[derive(Debug, Drop)]
pub enum Operator {
    Exists,
    DoesNotExist,
    In(Seq<Text>),
    NotIn(Seq<Text>),
}

/// A key, and what is asked of it.
#[derive(Debug, Drop)]
pub struct Requirement {
    pub key: Key,
    pub operator: Operator,
}

/// Puts a value at the end.
fn put_value(alloc: Global, values: &mut Seq<Text>, text: &[u8]) -> Result<(), SelectorFault>
    ensures { Puts values.old values.new result (value_of text.now) }
{
    match value_of(alloc, text) {
        Ok(value) => match values.push(value) {
            Ok(()) => Ok(()),
            Err(_) => Err(SelectorFault::NoMemory),
        },
        Err(fault) => Err(fault),
    }
}

/// One value or more, with commas between them.
fn values_of(alloc: Global, text: &[u8]) -> Result<Seq<Text>, SelectorFault>
    ensures { Gives (λ x. x) result (values_of text.now) }
{
    let Ok(mut values) = Seq::new(alloc) else {
        return Err(SelectorFault::NoMemory);
    };
    let mut rest = text;
    while let Some((front, more)) = cut(rest) {
        match put_value(alloc, &mut values, front) {
            Ok(()) => rest = more,
            Err(fault) => return Err(fault),
        }
    }
    match put_value(alloc, &mut values, rest) {
        Ok(()) => Ok(values),
        Err(fault) => Err(fault),
    }
}

/// One value, alone.
#[tactic(auto, unfolding(crate::specs::Reading::one_value))]
fn one_value(alloc: Global, text: &[u8]) -> Result<Seq<Text>, SelectorFault>
    ensures { Gives (λ x. x) result (one_value text.now) }
{
    let Ok(mut values) = Seq::new(alloc) else {
        return Err(SelectorFault::NoMemory);
    };
    match put_value(alloc, &mut values, text) {
        Ok(()) => Ok(values),
        Err(fault) => Err(fault),
    }
}

/// The values `inner`, where `)` and spaces are what stands behind them.
#[tactic(auto, unfolding(crate::specs::Reading::list_within))]
fn list_within(alloc: Global, inner: &[u8], rest: &[u8]) -> Result<Seq<Text>, SelectorFault>
    ensures { Gives (λ x. x) result (list_within inner.now rest.now) }
{
    match rest {
        [] => Err(SelectorFault::BadSelector),
        [_, end @ ..] => {
            if !skip(end).is_empty() {
                return Err(SelectorFault::BadSelector);
            }
            values_of(alloc, inner)
        }
    }
}

/// Values in parentheses.
#[tactic(auto, unfolding(crate::specs::Reading::list_of))]
fn list_of(alloc: Global, text: &[u8]) -> Result<Seq<Text>, SelectorFault>
    ensures { Gives (λ x. x) result (list_of text.now) }
{
    match text {
        [b'(', more @ ..] => {
            let (inner, rest) = until_close(more);
            list_within(alloc, inner, rest)
        }
        _ => Err(SelectorFault::BadSelector),
    }
}

/// `in` or `notin`, and values in parentheses.
#[tactic(auto, unfolding(crate::specs::Reading::list_operator))]
fn list_operator(alloc: Global, text: &[u8]) -> Result<Operator, SelectorFault>
    ensures { Gives (λ x. x) result (list_operator text.now) }
{
    let (word, rest) = name_at(text);
    let rest = skip(rest);
    if word == b"in".as_slice() {
        return match list_of(alloc, rest) {
            Ok(values) => Ok(Operator::In(values)),
            Err(fault) => Err(fault),
        };
    }
    if word == b"notin".as_slice() {
        return match list_of(alloc, rest) {
            Ok(values) => Ok(Operator::NotIn(values)),
            Err(fault) => Err(fault),
        };
    }
    Err(SelectorFault::BadSelector)
}

/// A text without `=` at its front.
fn after_equal(text: &[u8]) -> &[u8]
    ensures { result.now ≡ after_equal text.now }
{
    match text {
        [b'=', rest @ ..] => rest,
        _ => text,
    }
}

/// `=` and a value, behind `!`.
#[tactic(auto, unfolding(crate::specs::Reading::not_equal))]
fn not_equal(alloc: Global, text: &[u8]) -> Result<Operator, SelectorFault>
    ensures { Gives (λ x. x) result (not_equal text.now) }
{
    match text {
        [b'=', rest @ ..] => match one_value(alloc, rest) {
            Ok(values) => Ok(Operator::NotIn(values)),
            Err(fault) => Err(fault),
        },
        _ => Err(SelectorFault::BadSelector),
    }
}

/// What is asked, behind a key.
#[tactic(auto, unfolding(crate::specs::Reading::operator_of))]
fn operator_of(alloc: Global, text: &[u8]) -> Result<Operator, SelectorFault>
    ensures { Gives (λ x. x) result (operator_of text.now) }
{
    match text {
        [] => Ok(Operator::Exists),
        [b'=', rest @ ..] => match one_value(alloc, after_equal(rest)) {
            Ok(values) => Ok(Operator::In(values)),
            Err(fault) => Err(fault),
        },
        [b'!', rest @ ..] => not_equal(alloc, rest),
        _ => list_operator(alloc, text),
    }
}

/// A key alone, behind `!`.
#[tactic(auto, unfolding(crate::specs::Reading::missing))]
fn missing(alloc: Global, text: &[u8]) -> Result<Requirement, SelectorFault>
    ensures { Gives (λ x. x) result (missing text.now) }
{
    match key_at(alloc, text) {
        Ok((key, rest)) => {
            if !rest.is_empty() {
                return Err(SelectorFault::BadSelector);
            }
            Ok(Requirement {
                key,
                operator: Operator::DoesNotExist,
            })
        }
        Err(fault) => Err(fault),
    }
}

/// A key, and what is asked of it.
#[tactic(auto, unfolding(crate::specs::Reading::keyed))]
fn keyed(alloc: Global, text: &[u8]) -> Result<Requirement, SelectorFault>
    ensures { Gives (λ x. x) result (keyed text.now) }
{
    match key_at(alloc, text) {
        Ok((key, rest)) => match operator_of(alloc, rest) {
            Ok(operator) => Ok(Requirement { key, operator }),
            Err(fault) => Err(fault),
        },
        Err(fault) => Err(fault),
    }
}

#[tactic(auto, unfolding(crate::specs::Reading::requirement_from))]
fn requirement_from(alloc: Global, text: &[u8]) -> Result<Requirement, SelectorFault>
    ensures { Gives (λ x. x) result (requirement_from text.now) }
{
    match text {
        [b'!', rest @ ..] => missing(alloc, rest),
        _ => keyed(alloc, text),
    }
}

/// The requirement that is the whole text.
pub(crate) fn requirement_of(alloc: Global, text: &[u8]) -> Result<Requirement, SelectorFault>
    ensures { Gives (λ x. x) result (requirement_of text.now) }
{
    requirement_from(alloc, skip(text))
}
