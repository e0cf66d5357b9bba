//! What a selector means over labels.

ghost use Rattle.std.specs.Prelude.{◌≡◌, ◌↔◌, IsTrue, option_map};
ghost use Rattle.std.specs.List.{Any, Contains};
ghost use Rattle.hb_labels.specs.Meaning.{divided, is_colon, is_equal, label_parts, IsPartOf, HasKey, HasOneOf, Meets};

use crate::key::Key;
use crate::operator::Operator;
use hb_wire::Text;

fn at_equal(label: &str) -> Option<(&str, &str)>
    ensures { option_map (λ x. (x.0.now, x.1.now)) result ≡ divided is_equal label.now }
{
    label.split_once('=')
}

fn at_colon(part: &str) -> Option<(&str, &str)>
    ensures { option_map (λ x. (x.0.now, x.1.now)) result ≡ divided is_colon part.now }
{
    part.split_once(':')
}

/// A label's key part and its value.
fn divide(label: &str) -> (&str, &str)
    ensures { (result.0.now, result.1.now) ≡ label_parts label.now }
{
    match at_equal(label) {
        Some((part, value)) => (part, value),
        None => (label, ""),
    }
}

/// Whether a label's key part is the key's.
fn is_part_of(key: &Key, part: &str) -> bool
    ensures { IsTrue result ↔ IsPartOf key.now part.now }
{
    match (at_colon(part), &key.source) {
        (Some((source, name)), Some(wanted)) => {
            name == key.name.as_str() && source == wanted.as_str()
        }
        (Some((_, name)), None) => name == key.name.as_str(),
        (None, None) => part == key.name.as_str(),
        (None, Some(_)) => false,
    }
}

fn has_key(key: &Key, label: &str) -> bool
    ensures { IsTrue result ↔ HasKey key.now label.now }
{
    let (part, _) = divide(label);
    is_part_of(key, part)
}

fn contains(values: &[Text], value: &str) -> bool
    ensures { IsTrue result ↔ Contains values.now value.now }
{
    for one in values {
        if one.as_str() == value {
            return true;
        }
    }
    false
}

fn has_one_of(key: &Key, values: &[Text], label: &str) -> bool
    ensures { IsTrue result ↔ HasOneOf key.now values.now label.now }
{
    let (_, value) = divide(label);
    has_key(key, label) && contains(values, value)
}

/// Whether some label has the key.
fn some_has_key(key: &Key, labels: &[Text]) -> bool
    ensures { IsTrue result ↔ Any (HasKey key.now) labels.now }
{
    for label in labels {
        if has_key(key, label.as_str()) {
            return true;
        }
    }
    false
}

/// Whether some label has the key and one of the values.
fn some_has_one_of(key: &Key, values: &[Text], labels: &[Text]) -> bool
    ensures { IsTrue result ↔ Any (HasOneOf key.now values.now) labels.now }
{
    for label in labels {
        if has_one_of(key, values, label.as_str()) {
            return true;
        }
    }
    false
}

/// Whether the labels meet what is asked of the key.
pub(crate) fn meets(key: &Key, operator: &Operator, labels: &[Text]) -> bool
    ensures { IsTrue result ↔ Meets key.now operator.now labels.now }
{
    match operator {
        Operator::Exists => some_has_key(key, labels),
        Operator::DoesNotExist => !some_has_key(key, labels),
        Operator::In(values) => some_has_one_of(key, values.as_slice(), labels),
        Operator::NotIn(values) => !some_has_one_of(key, values.as_slice(), labels),
    }
}
