// The operations by their numbers.
use crate::records::Parts;
use crate::{fact_tree_checks, file_checks, list_checks, rule_checks};

// In document 01's order.
#[derive(Clone, Copy)]
pub enum Operation {
    ReadTokens,
    CheckPair,
    RawCode,
    CheckFile,
    CheckRuleTree,
    BuildRules,
    Resolve,
    MatchNode,
    Job,
    Walk,
}

impl Operation {
    pub const ALL: [Operation; 10] = [
        Operation::ReadTokens,
        Operation::CheckPair,
        Operation::RawCode,
        Operation::CheckFile,
        Operation::CheckRuleTree,
        Operation::BuildRules,
        Operation::Resolve,
        Operation::MatchNode,
        Operation::Job,
        Operation::Walk,
    ];

    // The operation of a number, the first at 1.
    pub fn numbered(number: u32) -> Option<Operation> {
        let place = number.checked_sub(1)?;
        Operation::ALL.get(place as usize).copied()
    }

    pub fn name(self) -> &'static [u8] {
        match self {
            Operation::ReadTokens => b"read tokens",
            Operation::CheckPair => b"check pairs",
            Operation::RawCode => b"write raw code",
            Operation::CheckFile => b"check file trees",
            Operation::CheckRuleTree => b"check rule trees",
            Operation::BuildRules => b"build rules",
            Operation::Resolve => b"resolve",
            Operation::MatchNode => b"match nodes",
            Operation::Job => b"jobs",
            Operation::Walk => b"walks",
        }
    }

    // Whether it answers as expected what a record's parts hand it.
    pub fn is_right(self, parts: Parts) -> bool {
        match self {
            Operation::ReadTokens => list_checks::read_tokens(parts),
            Operation::CheckPair => list_checks::check_pair(parts),
            Operation::RawCode => list_checks::raw_code(parts),
            Operation::CheckFile => fact_tree_checks::check_file(parts),
            Operation::CheckRuleTree => fact_tree_checks::check_rule_tree(parts),
            Operation::BuildRules => rule_checks::build_rules(parts),
            Operation::Resolve => rule_checks::resolve(parts),
            Operation::MatchNode => file_checks::match_node(parts),
            Operation::Job => file_checks::job(parts),
            Operation::Walk => file_checks::walk(parts),
        }
    }
}
