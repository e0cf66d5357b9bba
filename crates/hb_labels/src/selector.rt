//! Selectors.

ghost use Rattle.std.specs.Prelude.{◌≡◌, ◌↔◌, ◌∷◌, [], List, Ok, Err, IsTrue, IfOk, ◌⊎◌};
ghost use Rattle.hb_labels.specs.declared.operator.Requirement.{Requirement};
ghost use Rattle.hb_labels.specs.Reading.{Gives, Puts, requirement_of, selector_of};
ghost use Rattle.hb_labels.specs.Selectors.{SpellsSelector};
ghost use Rattle.hb_labels.specs.Meaning.{Holds};

use crate::cuts::cut;
use crate::fault::SelectorFault;
use crate::label::meets;
use crate::operator::{Requirement, requirement_of};
use hb_wire::{Seq, Text};
use std::alloc::Global;
use std::marker::Model;

/// Requirements, which are asked all together.
#[derive(Debug, Drop)]
pub struct Selector {
    requirements: Seq<Requirement>,
}

impl Model for Selector {
    ghost use Rattle.std.specs.Prelude.{List};
    ghost use Rattle.hb_labels.specs.declared.operator.Requirement.{Requirement};

    ghost Value = { List Requirement };

    ghost view = { λ selector. selector.requirements };
}

/// Puts a requirement at the end.
fn put_requirement(
    alloc: Global,
    requirements: &mut Seq<Requirement>,
    text: &[u8],
) -> Result<(), SelectorFault>
    ensures { Puts requirements.old requirements.new result (requirement_of text.now) }
{
    match requirement_of(alloc, text) {
        Ok(requirement) => match requirements.push(requirement) {
            Ok(()) => Ok(()),
            Err(_) => Err(SelectorFault::NoMemory),
        },
        Err(fault) => Err(fault),
    }
}

/// The requirements of a text.
fn requirements_of(alloc: Global, text: &[u8]) -> Result<Seq<Requirement>, SelectorFault>
    ensures { Gives (λ x. x) result (selector_of text.now) }
{
    let Ok(mut requirements) = Seq::new(alloc) else {
        return Err(SelectorFault::NoMemory);
    };
    let mut rest = text;
    while let Some((front, more)) = cut(rest) {
        match put_requirement(alloc, &mut requirements, front) {
            Ok(()) => rest = more,
            Err(fault) => return Err(fault),
        }
    }
    match put_requirement(alloc, &mut requirements, rest) {
        Ok(()) => Ok(requirements),
        Err(fault) => Err(fault),
    }
}

/// The selector that the text spells (Kubernetes documentation, "Labels and Selectors", set-based
/// requirements): requirements `key`, `!key`, `key=value`, `key==value`, `key!=value`,
/// `key in (a,b)` and `key notin (a,b)`, with commas between them and any spaces around keys,
/// values, signs, commas and parentheses. A key may have a source before it, `source:key`.
///
/// `BadSelector` where the text spells none.
pub fn read_selector(alloc: Global, text: &str) -> Result<Selector, SelectorFault>
    ensures ok { IfOk result (λ selector. SpellsSelector text.now selector) }
    ensures only { (requirements : List Requirement) → SpellsSelector text.now requirements
        → (result ≡ Ok requirements) ⊎ (result ≡ Err SelectorFault.NoMemory) }
    ensures bad { result ≡ Err SelectorFault.BadSelector → (requirements : List Requirement)
        → SpellsSelector text.now requirements → ⊥ }
{
    match requirements_of(alloc, text.as_bytes()) {
        Ok(requirements) => Ok(Selector { requirements }),
        Err(fault) => Err(fault),
    }
}

impl Selector {
    /// Whether the labels meet each requirement. A label is its key, behind its source and `:`
    /// where it has one, and its value behind `=`, empty where there is none.
    pub fn holds(&self, labels: &[Text]) -> bool
        ensures meaning { IsTrue result ↔ Holds self.now labels.now }
    {
        for requirement in self.requirements.as_slice() {
            if !meets(&requirement.key, &requirement.operator, labels) {
                return false;
            }
        }
        true
    }
}
