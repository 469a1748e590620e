// The pairs as they are handed in: the five forms of docs/src/src/fragments.rs and their order, in a directory of lengths
// (docs/FORMAT.md, "Rules").
#![tactic(auto)]

pub mod forms; // forms.rt: the sides and the forms of a pair
pub mod directory; // directory.rt: the rows, what they count, and their faults
pub mod pairs; // pairs.rt: a pair and its parts, and all pairs in turn
