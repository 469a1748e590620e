// Whether words are the well-formed facts of a tree (21): each fact by its words, its sort, its element and its values, and then the list.
ghost use Rattle.std.specs.Prelude.{◌≡◌, true, false, cond, ◌&&◌, ◌≤◌, ◌/◌, length, IfOk, IfErr};
ghost use Rattle.errors.specs.Refusals.{ok, err};
ghost use Rattle.errors.specs.declared.Refusal.TheVariants.{MalformedFacts};
ghost use Rattle.syntax.specs.Views.{tree_of};
ghost use Rattle.facts.specs.Facts.{sort_number, fact_at, is_fact_part, facts_of, are_fact_words, allows, low_kind, high_kind, names_token, has_values, is_fact, are_facts, is_fact_list};

use errors::Refusal;
use facts::{Fact, Facts, IndexTables, Owner, Sort};
use syntax::kinds::{EXPRESSIONS, Kinds, METHOD_CALL_EXPR, NODES, PATH, RECORD_EXPR_FIELD};
use syntax::trees::Tree;
use words::fields;
use words::fields::WordKind;

// The most facts that a list may have.
const MAX_FACTS: usize = 16383;

// A tree that facts stand on: whose it is, and how many bytes the text has that its facts point into.
#[derive(Clone, Copy)]
pub struct FactTree<'a> {
    pub owner: Owner,
    pub tree: Tree<'a>,
    pub bytes: usize,
}

// Whether the words of a fact have their kinds.
fn is_fact_part(part: &[u32]) -> bool
    ensures { result ≡ is_fact_part part.now }
{
    fields::has_kind(part, 0, WordKind::Fact)
        && fields::has_kind(part, 1, WordKind::Value)
        && fields::has_kind(part, 2, WordKind::Value)
        && fields::has_kind(part, 3, WordKind::Value)
}

// Whether a sort stands on an owner's trees.
fn is_allowed(owner: Owner, sort: Sort) -> bool
    ensures { result ≡ allows owner (sort_number sort) }
{
    match owner {
        Owner::File => matches!(
            sort,
            Sort::CodePath | Sort::MethodCall | Sort::Expression | Sort::RecordField | Sort::Node
        ),
        Owner::Pattern => matches!(sort, Sort::RulePath | Sort::PatternPath),
        Owner::Template => matches!(sort, Sort::RulePath | Sort::TemplatePath),
    }
}

// The kinds of node that a sort stands at.
fn kinds_of(sort: Sort) -> Kinds
    ensures low { result.low ≡ low_kind (sort_number sort) }
    ensures high { result.high ≡ high_kind (sort_number sort) }
{
    match sort {
        Sort::MethodCall => Kinds::one(METHOD_CALL_EXPR),
        Sort::Expression => EXPRESSIONS,
        Sort::RecordField => Kinds::one(RECORD_EXPR_FIELD),
        Sort::Node => NODES,
        Sort::CodePath | Sort::RulePath | Sort::PatternPath | Sort::TemplatePath => {
            Kinds::one(PATH)
        }
    }
}

// Whether a record field's fact names a token inside the field; another fact names none.
fn names_token(tree: Tree, sort: Sort, fact: Fact) -> bool
    requires { sort_number sort ≡ fact.sort }
    ensures { result ≡ names_token (tree_of tree.entry) fact }
{
    sort != Sort::RecordField || tree.is_token_within(fact.element, fact.first as usize)
}

// Whether the values after the first have a sort's form, with a fact text of some bytes.
fn has_values(sort: Sort, second: u32, third: u32, bytes: usize) -> bool
    ensures { result ≡ has_values bytes (sort_number sort) second third }
{
    match sort {
        Sort::RulePath => second <= 7 && third == 0,
        Sort::MethodCall => second <= 1 && third <= 2,
        Sort::Expression => third == 0,
        Sort::TemplatePath => second as usize + third as usize <= bytes,
        Sort::CodePath | Sort::PatternPath | Sort::RecordField | Sort::Node => {
            second == 0 && third == 0
        }
    }
}

impl FactTree<'_> {
    // Whether a fact is one of the tree.
    fn has(self, fact: Fact) -> bool
        ensures { result ≡ is_fact self.entry.owner (tree_of self.entry.tree) self.entry.bytes fact }
    {
        let Ok(sort) = Sort::try_from(fact.sort) else {
            return false;
        };
        is_allowed(self.owner, sort)
            && self.tree.is_node_at(fact.element, kinds_of(sort))
            && names_token(self.tree, sort, fact)
            && has_values(sort, fact.second, fact.third, self.bytes)
    }

    // Whether a part is the words of a fact, and that is one of the tree.
    fn is_fact(self, part: &[u32]) -> bool
        ensures { result ≡ (is_fact_part part.now && is_fact self.entry.owner (tree_of self.entry.tree) self.entry.bytes (fact_at part.now)) }
    {
        is_fact_part(part) && self.has(Fact::read(part))
    }

    // Whether all words are those of facts, and each is one of the tree.
    fn are_facts(self, words: &[u32]) -> bool
        ensures { result ≡ (are_fact_words words.now && are_facts self.entry.owner (tree_of self.entry.tree) self.entry.bytes (facts_of words.now)) }
    {
        if words.len() % 4 != 0 {
            return false;
        }
        for part in words.chunks_exact(4) {
            if !self.is_fact(part) {
                return false;
            }
        }
        true
    }

    // The facts of the tree that words are; their index is made in lent tables.
    pub fn check_and_index<'a>(
        self,
        words: &'a [u32],
        index: IndexTables<'a>,
    ) -> Result<Facts<'a>, Refusal>
        requires { length words.now / 4 ≤ 16383 → length words.now / 4 ≤ length index.entries.now }
        ensures accepted { IfOk result (λ facts. (facts ≡ words.now) × (is_fact_list self.entry.owner (tree_of self.entry.tree) self.entry.bytes words.now ≡ true)) }
        ensures refused { IfErr result (λ r. (r ≡ MalformedFacts) × (is_fact_list self.entry.owner (tree_of self.entry.tree) self.entry.bytes words.now ≡ false)) }
    {
        if MAX_FACTS < words.len() / 4 {
            return Err(Refusal::MalformedFacts);
        }
        if !self.are_facts(words) {
            return Err(Refusal::MalformedFacts);
        }
        let (entries, room) = (index.entries, index.starts);
        let elements = self.tree.len().min(room.len());
        let starts = &mut room[..elements];
        let facts = Facts::index(words, IndexTables { entries, starts });
        if facts.is_steady() {
            Ok(facts)
        } else {
            Err(Refusal::MalformedFacts)
        }
    }

    // The same, where the facts are not wanted, with an index of N entries.
    fn check_in<const N: usize>(self, words: &[u32]) -> Result<(), Refusal>
        requires { (N ≤ 16384) × (length words.now / 4 ≤ 16383 → length words.now / 4 ≤ N) }
        ensures { result ≡ cond (is_fact_list self.entry.owner (tree_of self.entry.tree) self.entry.bytes words.now) ok (err MalformedFacts) }
    {
        let mut entries = [0u64; N];
        let index = IndexTables {
            entries: &mut entries,
            starts: &mut [],
        };
        self.check_and_index(words, index)?;
        Ok(())
    }

    // Whether words are the well-formed facts of the tree.
    pub fn check_facts(self, words: &[u32]) -> Result<(), Refusal>
        ensures { result ≡ cond (is_fact_list self.entry.owner (tree_of self.entry.tree) self.entry.bytes words.now) ok (err MalformedFacts) }
    {
        // Clearing the large array takes longer than most lists.
        if words.len() / 4 <= 64 {
            self.check_in::<64>(words)
        } else {
            self.check_in::<16384>(words)
        }
    }
}
