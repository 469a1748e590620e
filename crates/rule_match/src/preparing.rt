// A rule made ready for matching: `MatchFinder::add_rule` of docs/src/src/lib.rs resolves a rule, and `Matcher` looks at what was resolved.
pub mod tables; // tables.rt: what making a rule ready works in
pub mod prepared_rule; // prepared_rule.rt: a rule made ready, and its matcher

pub use prepared_rule::Prepared;
pub use tables::MatchTables;
