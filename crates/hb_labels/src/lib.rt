//! Label selectors, as Kubernetes has them, with a source before a key, as in
//! `k8s:app in (web, api),!debug`: read from a text, and held against labels. A contract sees a
//! `Selector` as the list of its `Requirement`s. The theorems are that a text is read as the one list
//! of requirements that it spells, and that `holds` is what these mean over the labels.
#![tactic(auto)]

mod cuts;
mod fault;
mod key;
mod label;
mod laws;
mod operator;
mod selector;
#[cfg(test)]
mod tests;

pub use fault::SelectorFault;
pub use key::Key;
pub use laws::one_selector;
pub use operator::{Operator, Requirement};
pub use selector::{Selector, read_selector};
