// Reading rules from tokens: document 01's refusals 1 to 13, after docs/src/src/parsing.rs.
#![tactic(auto)]

pub mod arrays; // arrays.rt: the constraints of a placeholder, and the placeholders of a list
pub mod patterns; // patterns.rt: the placeholders of a list
pub mod reading; // reading.rt: reading a list token by token
