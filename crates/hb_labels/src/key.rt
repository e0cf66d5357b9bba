//! Keys and values.

ghost use Rattle.std.specs.Prelude.{◌≡◌, Some, IfOk};
ghost use Rattle.hb_labels.specs.Texts.{IsName};
ghost use Rattle.hb_labels.specs.Reading.{Gives, plain_key, source_key, key_with, key_at, value_of, name_front};

use crate::cuts::{name_at, skip};
use crate::fault::SelectorFault;
use hb_wire::{NoMemory, Text};
use std::alloc::Global;
use std::str;

/// A label's key, of one source or of any.
#[derive(Debug, Drop)]
pub struct Key {
    pub source: Option<Text>,
    pub name: Text,
}

/// A copy of a name.
fn text_of(alloc: Global, name: &[u8]) -> Result<Text, NoMemory>
    requires { IsName name.now }
    ensures { IfOk result (λ text. text ≡ name.now) }
{
    match str::from_utf8(name) {
        Ok(name) => Text::of(alloc, name),
        Err(_) => unreachable!(),
    }
}

/// A copy of the name at the front of a text.
fn front_of(alloc: Global, text: &[u8]) -> Result<Text, SelectorFault>
    ensures { Gives (λ x. x) result (Some (name_front text.now)) }
{
    let (name, _) = name_at(text);
    match text_of(alloc, name) {
        Ok(text) => Ok(text),
        Err(NoMemory) => Err(SelectorFault::NoMemory),
    }
}

/// The value that is the whole text but for spaces around it.
#[tactic(auto, unfolding(crate::specs::Reading::value_of))]
pub(crate) fn value_of(alloc: Global, text: &[u8]) -> Result<Text, SelectorFault>
    ensures { Gives (λ x. x) result (value_of text.now) }
{
    let text = skip(text);
    let (_, rest) = name_at(text);
    if !skip(rest).is_empty() {
        return Err(SelectorFault::BadSelector);
    }
    front_of(alloc, text)
}

#[tactic(auto, unfolding(crate::specs::Reading::plain_key))]
fn plain_key(alloc: Global, text: &[u8]) -> Result<Key, SelectorFault>
    ensures { Gives (λ x. x) result (plain_key text.now) }
{
    let (name, _) = name_at(text);
    if name.is_empty() {
        return Err(SelectorFault::BadSelector);
    }
    match front_of(alloc, text) {
        Ok(name) => Ok(Key { source: None, name }),
        Err(fault) => Err(fault),
    }
}

#[tactic(auto, unfolding(crate::specs::Reading::source_key))]
fn source_key(alloc: Global, source: &[u8], text: &[u8]) -> Result<Key, SelectorFault>
    ensures { Gives (λ x. x) result (source_key source.now text.now) }
{
    let (name, _) = name_at(source);
    if name.is_empty() {
        return Err(SelectorFault::BadSelector);
    }
    match (front_of(alloc, source), plain_key(alloc, text)) {
        (Ok(source), Ok(key)) => Ok(Key {
            source: Some(source),
            name: key.name,
        }),
        (Ok(_), Err(fault)) => Err(fault),
        (Err(fault), _) => Err(fault),
    }
}

/// The key at the front of `text`, given what stands behind its first name, and what stands behind
/// the key and spaces.
#[tactic(auto, unfolding(crate::specs::Reading::key_with))]
fn key_with<'a>(
    alloc: Global,
    text: &[u8],
    rest: &'a [u8],
) -> Result<(Key, &'a [u8]), SelectorFault>
    ensures { Gives (λ x. (x.0, x.1.now)) result (key_with text.now rest.now) }
{
    match rest {
        [b':', more @ ..] => {
            let (_, after) = name_at(more);
            match source_key(alloc, text, more) {
                Ok(key) => Ok((key, skip(after))),
                Err(fault) => Err(fault),
            }
        }
        _ => match plain_key(alloc, text) {
            Ok(key) => Ok((key, skip(rest))),
            Err(fault) => Err(fault),
        },
    }
}

/// The key at the front, behind spaces, and what stands behind it and spaces.
pub(crate) fn key_at(alloc: Global, text: &[u8]) -> Result<(Key, &[u8]), SelectorFault>
    ensures { Gives (λ x. (x.0, x.1.now)) result (key_at text.now) }
{
    let text = skip(text);
    let (_, rest) = name_at(text);
    key_with(alloc, text, rest)
}
