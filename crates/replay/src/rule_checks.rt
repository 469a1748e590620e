// The operations on rules. A directory and its words have room for 512 each.
use crate::answer_bytes;
use crate::records::Parts;
use ssr::rule_exports;

// Whether building rules answers as expected.
pub fn build_rules(parts: Parts) -> bool {
    let directory = parts.words::<512>(0);
    let words = parts.words::<512>(1);
    let answer = rule_exports::ssr_build_rules(
        directory.as_slice(),
        words.as_slice(),
        parts.at(2),
        parts.number(3) as usize,
    );
    answer_bytes::is_answer(&answer, parts.at(4))
}

// Whether resolving an element of a rule's side answers as expected.
pub fn resolve(parts: Parts) -> bool {
    let directory = parts.words::<512>(0);
    let words = parts.words::<512>(1);
    let answer = rule_exports::ssr_resolve(
        directory.as_slice(),
        words.as_slice(),
        parts.at(2),
        parts.at(3),
        parts.number(4) as usize,
        parts.number(5),
        parts.number(6) as usize,
    );
    answer_bytes::is_answer(&answer, parts.at(7))
}
