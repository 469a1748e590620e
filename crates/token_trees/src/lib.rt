// Token trees: document 01, "Token trees call themselves".
#![tactic(auto)]

pub mod comments; // comments.rt: `record_ignored_comments`
pub mod runs; // runs.rt: how far a placeholder's run goes
pub mod token_trees; // token_trees.rt: `attempt_match_token_tree`
