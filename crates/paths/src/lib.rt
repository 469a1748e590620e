// Resolving the paths of one rule's tree: docs/src/src/resolving.rs over facts.
#![tactic(auto)]

pub mod names; // names.rt: the name of a path, its type arguments and its qualifiers
pub mod resolving; // resolving.rt: the walk over a tree
pub mod resolved; // resolved.rt: what it found at an element

pub use resolved::Resolved;
pub use resolving::{Noted, RuleTree};
