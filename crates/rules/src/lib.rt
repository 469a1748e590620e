// The rules of pairs: `ParsedRule::new` of docs/src/src/parsing.rs over trees that are handed in.
#![tactic(auto)]

pub mod forms; // forms.rt: the forms of a pair that are rules, and those left
pub mod stages; // stages.rt: the checks of all pairs: 1 to 15, 18 to 21, 17
pub mod numbering; // numbering.rt: how many rules are left, the rule of a number, and the first of them
pub mod building; // building.rt: the operation
