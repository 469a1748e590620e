// The operation that matches.
ghost use Rattle.std.specs.Prelude.{◌≡◌, length};
ghost use Rattle.words.specs.Buffer.{used_of};
ghost use Rattle.checks.specs.Given.{rules_of, file_of};
ghost use Rattle.match_node.specs.MatchNode.{matched_node, buffer_after};
ghost use Rattle.ssr.specs.Matches.{restriction, node_matched};

use ssr::match_answers::MatchedNode;
use ssr::match_exports;

// Matching one node with one rule, in a range that is given unless the flag is 0.
#[unsafe(no_mangle)]
pub extern "C" fn ssr_match_node(
    directory: &[u32],
    words: &[u32],
    bytes: &[u8],
    fact_text: &[u8],
    tree: &[u32],
    text: &[u8],
    facts: &[u32],
    node: usize,
    rule: usize,
    range_given: u32,
    range_start: usize,
    range_end: usize,
    out: &mut [u8],
) -> MatchedNode
    ensures value { result ≡ node_matched (matched_node (rules_of directory.now words.now bytes.now (length fact_text.now)) (file_of tree.now text.now facts.now) rule (restriction range_given range_start range_end) node (used_of (length out.old))) }
    ensures out_after { out.new ≡ buffer_after (rules_of directory.now words.now bytes.now (length fact_text.now)) (file_of tree.now text.now facts.now) rule (restriction range_given range_start range_end) node out.old }
{
    match_exports::ssr_match_node(
        directory,
        words,
        bytes,
        fact_text,
        tree,
        text,
        facts,
        node,
        rule,
        range_given,
        range_start,
        range_end,
        out,
    )
}
