// Trees with their facts. A list, a tree and facts have room for 512 words each.
use crate::answer_bytes;
use crate::records::Parts;

// Whether checking the file's tree with its facts answers as expected.
pub fn check_file(parts: Parts) -> bool {
    let tree = parts.words::<512>(0);
    let facts = parts.words::<512>(2);
    let answer = ssr::ssr_check_file(tree.as_slice(), parts.at(1), facts.as_slice());
    answer_bytes::is_answer(&answer, parts.at(3))
}

// Whether checking a rule's tree with its facts answers as expected.
pub fn check_rule_tree(parts: Parts) -> bool {
    let list = parts.words::<512>(1);
    let tree = parts.words::<512>(4);
    let facts = parts.words::<512>(6);
    let answer = ssr::ssr_check_rule_tree(
        parts.number(0),
        list.as_slice(),
        parts.at(2),
        parts.number(3),
        tree.as_slice(),
        parts.at(5),
        facts.as_slice(),
        parts.at(7),
    );
    answer_bytes::is_answer(&answer, parts.at(8))
}
