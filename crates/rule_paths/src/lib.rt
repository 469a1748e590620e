// Resolving the trees of rules: `ResolvedRule` of docs/src/src/resolving.rs.
#![tactic(auto)]

pub mod tables; // tables.rt: what resolving works in
pub mod passed; // passed.rt: a pair whose trees passed their checks
pub mod resolved; // resolved.rt: rules whose paths resolve
pub mod accepted; // accepted.rt: rules and a file that pass 1 to 22

pub use passed::PassedPair;
pub use resolved::{ResolvedRule, ResolvedRules};
pub use tables::Tables;
