// Trees with their facts, wherever they are given: 18 to 21 of the file's and of a rule's.
#![tactic(auto)]

pub mod tree_checks; // tree_checks.rt: whether words are a well-formed tree (18, 19, 20)
mod fact_checks; // fact_checks.rt: whether words are the well-formed facts of a tree (21)

ghost use Rattle.std.specs.Prelude.{◌≡◌, true, ◌↔◌, ◌/◌, ◌≤◌, length, option_map, IfOk};
ghost use Rattle.errors.specs.Refusals.{ok};
ghost use Rattle.tokens.specs.Tokens.{parts_of};
ghost use Rattle.facts.specs.declared.Owner.TheVariants as owners;
ghost use Rattle.trees.specs.Given.{with_facts, file_outcome, rule_outcome, right_text, given_outcome, Stands, outcome_of, Holds};

use crate::fact_checks::FactTree;
use crate::tree_checks::TreeText;
use errors::Refusal;
use facts::{Facts, IndexTables, Owner};
use parsing::reading;
use rust_code::tree_text;
use syntax::trees::Tree;
use tokens::TokenList;

// A file as it is handed in: the words of its tree, its text, and the words of its facts.
#[derive(Clone, Copy)]
pub struct GivenFile<'a> {
    pub words: &'a [u32],
    pub text: &'a [u8],
    pub facts: &'a [u32],
}

// A file that was accepted: its tree, its text and its facts.
#[derive(Drop)]
pub struct File<'a> {
    pub tree: Tree<'a>,
    pub text: &'a [u8],
    pub facts: Facts<'a>,
}

// A tree as it is handed in: whose it is, its words, the words of its facts, and how many bytes the text has that these point into.
#[derive(Clone, Copy)]
pub struct GivenTree<'a> {
    pub owner: Owner,
    pub words: &'a [u32],
    pub facts: &'a [u32],
    pub fact_bytes: usize,
}

// The text of a file's tree, which is the file's own.
fn text_of(file: GivenFile) -> TreeText
    ensures { result ≡ record { bytes = length file.entry.text.now; is_right = true } }
{
    TreeText {
        bytes: file.text.len(),
        is_right: true,
    }
}

// The file's tree with its facts.
#[tactic(auto, using(crate::proofs::GivenLaws::stands_exactly))]
pub fn check_file(file: GivenFile) -> Result<(), Refusal>
    ensures value { result ≡ file_outcome file.entry.words.now file.entry.text.now file.entry.facts.now }
    ensures variant { (result ≡ ok) ↔ Stands owners.File (length file.entry.text.now) file.entry.words.now file.entry.facts.now 0 }
{
    let tree = GivenTree {
        owner: Owner::File,
        words: file.words,
        facts: file.facts,
        fact_bytes: 0,
    };
    tree.check_with_facts(text_of(file))
}

// The same, and the file with the index of its facts where it is accepted.
#[tactic(auto, using(crate::proofs::GivenLaws::tree_decides, crate::proofs::GivenLaws::facts_good, crate::proofs::GivenLaws::facts_bad))]
pub fn check_and_index_file<'a>(
    file: GivenFile<'a>,
    index: IndexTables<'a>,
) -> Result<File<'a>, Refusal>
    requires { length file.facts.now / 4 ≤ 16383 → length file.facts.now / 4 ≤ length index.entries.now }
    ensures value { outcome_of result ≡ file_outcome file.entry.words.now file.entry.text.now file.entry.facts.now }
    ensures file { IfOk result (Holds file.entry) }
{
    let tree = tree_checks::check_tree(file.words, text_of(file))?;
    let on = FactTree {
        owner: Owner::File,
        tree,
        bytes: 0,
    };
    let facts = on.check_and_index(file.facts, index)?;
    Ok(File {
        tree,
        text: file.text,
        facts,
    })
}

// Whether a rule's code is its list's text, or the list's refusal; without a list no text is the right one.
pub fn has_right_text(list: Option<TokenList>, code: &[u8]) -> Result<bool, Refusal>
    ensures { result ≡ right_text (option_map parts_of list.entry) code.now }
{
    let Some(list) = list else {
        return Ok(false);
    };
    let pattern = reading::parse_pattern(list)?;
    Ok(tree_text::is_tree_text(list, &pattern, code))
}

impl GivenTree<'_> {
    // 18 to 20 of the tree over a text, then 21 of its facts.
    #[tactic(auto, using(crate::proofs::GivenLaws::tree_decides, crate::proofs::GivenLaws::facts_decide))]
    fn check_with_facts(self, text: TreeText) -> Result<(), Refusal>
        ensures { result ≡ with_facts self.entry.owner text.is_right text.bytes self.entry.words.now self.entry.facts.now self.entry.fact_bytes }
    {
        let on = FactTree {
            owner: self.owner,
            tree: tree_checks::check_tree(self.words, text)?,
            bytes: self.fact_bytes,
        };
        on.check_facts(self.facts)
    }

    // A rule's tree with its facts; one without words is absent.
    #[tactic(auto, unfolding(errors::specs::Refusals::first_of))]
    pub fn check_rule_tree(self, text: TreeText) -> Result<(), Refusal>
        ensures { result ≡ rule_outcome self.entry.owner text.is_right self.entry.words.now text.bytes self.entry.facts.now self.entry.fact_bytes }
    {
        if !self.words.is_empty() {
            return self.check_with_facts(text);
        }
        if !self.facts.is_empty() {
            return Err(Refusal::MalformedFacts);
        }
        Ok(())
    }

    // A rule's tree over a code, with its list, which is given or not, and its facts.
    pub fn check_given_tree(self, list: Option<TokenList>, code: &[u8]) -> Result<(), Refusal>
        ensures { result ≡ given_outcome (option_map parts_of list.entry) self.entry.owner self.entry.words.now code.now self.entry.facts.now self.entry.fact_bytes }
    {
        let is_right = has_right_text(list, code)?;
        self.check_rule_tree(TreeText {
            bytes: code.len(),
            is_right,
        })
    }
}
