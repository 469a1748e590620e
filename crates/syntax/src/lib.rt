// Syntax trees: what words are a well-formed tree over a text, in definitions, and the accessors that document 01 fixes.
#![tactic(auto)]

pub mod kinds; // kinds.rt: the syntax kinds that document 01 names
pub mod parts; // parts.rt: siblings in turn, and going along them and down
pub mod trees; // trees.rt: a well-formed tree, and its elements by number
