// `get_match` of docs/src/src/matching.rs from `attempt_match_node` down.
#![tactic(auto)]

pub mod attempt_match; // attempt_match.rt: node, child sequence, path, record list and call matching, which call each other
