// `resolve` of docs/src/src/resolving.rs.
ghost use Rattle.std.specs.Prelude.{◌≡◌, ◌/◌, ◌≤◌, ◌<◌, cond, length, set, Some, IfSome, IfOk};
ghost use Rattle.syntax.specs.Trees.{Elems};
ghost use Rattle.errors.specs.Refusals.{ok, err};
ghost use Rattle.errors.specs.declared.Refusal.TheVariants.{UnresolvedPath};
ghost use Rattle.syntax.specs.Views.{elems_of, tree_of};
ghost use Rattle.facts.specs.Facts.{facts_of};
ghost use Rattle.paths.specs.Steps.{side_by, flags_at, path_place, by_fact, step, PlacedBelow};
ghost use Rattle.paths.specs.Resolved.{is_unresolved, claim_by};
ghost use Rattle.paths.specs.Tables.{paths_of, calls_of, noted, call_number, AtElement, AtSiblings, Within, Room, HasFacts, NotesOf};

use crate::names;
use crate::names::Qualifiers;
use errors::Refusal;
use facts::{Facts, IndexTables, Sort};
use parsing::patterns::Pattern;
use syntax::kinds::{CALL_EXPR, Kinds, PATH};
use syntax::parts::Part;
use syntax::trees::Tree;

// What resolving notes of an element: the place of its fact where it is a resolved path, and the path that claims it where it is a call.
#[derive(Clone, Copy)]
pub struct Noted {
    pub(crate) path: Option<u16>,
    pub(crate) call: Option<u16>,
}

impl Noted {
    // Nothing is noted.
    pub const NOTHING: Noted = Noted {
        path: None,
        call: None,
    };
}

// What resolving does at an element.
#[derive(Clone, Copy)]
pub enum Step {
    // A `self` path: nothing, and nothing below it.
    Skips,
    // A path that must resolve and has no fact: 22.
    Fails,
    // A resolved path, with its fact's place; nothing below it is looked at.
    Resolves(usize),
    // Anything else: its children are looked at.
    Enters,
}

// A rule's tree with its own text and facts, and the placeholders of the rule's pattern.
#[derive(Drop)]
pub struct RuleTree<'a> {
    pub tree: Tree<'a>,
    pub code: &'a [u8],
    pub pattern: &'a Pattern<'a>,
    pub facts: Facts<'a>,
    pub ghost few: { length (facts_of facts) ≤ 16383 },
}

// A CALL_EXPR by its number.
#[tactic(auto, using(crate::proofs::StepLaws::number_in))]
fn call_number(c: Part<'_>) -> Option<usize>
    ensures { result ≡ call_number (elems_of c.entry) }
{
    if c.is_node_in(Kinds::one(CALL_EXPR)) {
        return Some(c.number);
    }
    None
}

// Notes the place of a resolved path's fact.
#[tactic(auto, using(crate::proofs::TableLaws::path_set, crate::proofs::TableLaws::call_kept))]
fn note_path(notes: &mut [Noted], path: usize, place: usize)
    requires { (path < length notes.old) × (place < 65536) }
    ensures notes_len_unchanged { length notes.new ≡ length notes.old }
    ensures paths_after { paths_of notes.new ≡ set (paths_of notes.old) path (Some place) }
    ensures calls_after { calls_of notes.new ≡ calls_of notes.old }
{
    notes[path].path = Some(place as u16);
}

// Notes a path for the call that is its grandparent, where its flags are those of an associated function.
#[tactic(auto, using(crate::proofs::TableLaws::call_set, crate::proofs::TableLaws::path_kept))]
fn note_call(notes: &mut [Noted], grandparent: Option<usize>, path: usize, flags: u32)
    requires { Within grandparent (length notes.old) × (path < 65536) }
    ensures notes_len_unchanged { length notes.new ≡ length notes.old }
    ensures paths_after { paths_of notes.new ≡ paths_of notes.old }
    ensures calls_after { (g : Elems) → grandparent ≡ call_number g → calls_of notes.new ≡ noted (claim_by path flags g) (calls_of notes.old) }
{
    if let Some(call) = grandparent {
        if flags / 4 % 2 == 1 {
            notes[call].call = Some(path as u16);
        }
    }
}

impl<'a> RuleTree<'a> {
    ghost use Rattle.rust_code.specs.StandIns.{stand_in_position};
    ghost use Rattle.parsing.specs.Vars.{vars_of};
    ghost use Rattle.paths.specs.Names.{contains_placeholder};
    ghost use Rattle.paths.specs.Trees.{side_of, side_tree};

    // A rule's tree with the index of its facts, which is made in the first numbers of a slice.
    #[tactic(auto, using(crate::proofs::TableLaws::has_few, crate::proofs::TableLaws::has_low, syntax::proofs::FormedLaws::formed_is, facts::proofs::FactLaws::length_facts))]
    pub fn new(
        tree: Tree<'a>,
        code: &'a [u8],
        pattern: &'a Pattern<'a>,
        facts: &'a [u32],
        index: &'a mut [u64],
    ) -> RuleTree<'a>
        requires has_facts { HasFacts tree.words.now facts.now }
        requires index_len { length facts.now / 4 ≤ length index.old }
        ensures { side_tree result ≡ record { side = side_by pattern.now.text.now (vars_of pattern.now) code.now facts.now; words = tree.entry.words.now } }
    {
        let index = IndexTables {
            entries: index,
            starts: &mut [],
        };
        let facts = Facts::index(facts, index);
        RuleTree {
            tree,
            code,
            pattern,
            facts,
        }
    }

    // The placeholder whose stand-in name a text is.
    #[tactic(auto, using(crate::proofs::NameLaws::stand_in_low))]
    pub fn find_stand_in(&self, name: &[u8]) -> Option<usize>
        ensures value { result ≡ stand_in_position (side_of self.now).placeholders.text (side_of self.now).placeholders.vars name.now }
        ensures low { IfSome result (λ slot. slot < 8) }
    {
        // `len` promises that there are eight at most.
        let _ = self.pattern.placeholders.len();
        rust_code::find_stand_in(self.pattern, name)
    }

    // Whether the name of the first path among siblings or of one of its qualifiers is a stand-in name.
    #[tactic(auto, using(crate::proofs::NameLaws::placeholder_here, crate::proofs::NameLaws::placeholder_past, crate::proofs::NameLaws::placeholder_end))]
    fn contains_placeholder(&self, siblings: Part<'_>) -> bool
        ensures { result ≡ contains_placeholder (side_of self.now).placeholders self.now.code.now (elems_of siblings.entry) }
    {
        for path in (Qualifiers { siblings }) {
            if self
                .find_stand_in(names::name_in(path).text(self.code))
                .is_some()
            {
                return true;
            }
        }
        false
    }

    // The flags of the fact at a place; none where there is no such fact.
    fn flags_at(&self, place: usize) -> u32
        ensures { result ≡ flags_at self.now.facts place }
    {
        self.facts.at(place).map_or(0, |fact| fact.second)
    }

    // A path that must resolve, by its fact.
    fn step_by_fact(&self, path: usize) -> Step
        ensures value { result ≡ by_fact self.now.facts (path_place self.now.facts path) }
        ensures placed_below { PlacedBelow 16383 result }
    {
        match self.facts.place(Sort::RulePath, path, 0) {
            None => Step::Fails,
            Some(place) => {
                if self.flags_at(place) % 2 == 1 {
                    return Step::Resolves(place);
                }
                Step::Enters
            }
        }
    }

    // The element that a part begins with.
    #[tactic(auto, using(crate::proofs::StepLaws::step_other, crate::proofs::StepLaws::step_self, crate::proofs::StepLaws::step_arguments, crate::proofs::StepLaws::step_stand_in, crate::proofs::StepLaws::step_fact, crate::proofs::StepLaws::number_in))]
    fn step(&self, c: Part<'_>) -> Step
        ensures value { result ≡ step (side_of self.now) (elems_of c.entry) }
        ensures placed_below { PlacedBelow 16383 result }
    {
        if !c.is_node_in(Kinds::one(PATH)) {
            return Step::Enters;
        }
        if names::is_self(c) {
            return Step::Skips;
        }
        if names::contains_type_arguments(c.children()) {
            return Step::Enters;
        }
        if self.contains_placeholder(c) {
            return Step::Enters;
        }
        self.step_by_fact(c.number)
    }

    // Resolves the element that a part begins with, and what is below it.
    #[cycle(resolve)]
    fn resolve_element(
        &self,
        c: Part<'_>,
        parent: Option<usize>,
        grandparent: Option<usize>,
        notes: &mut [Noted],
    ) -> Result<(), Refusal>
        requires room { Room c parent grandparent notes.old × (3 ≤ length c.words.now) }
        ensures notes_len_unchanged { length notes.new ≡ length notes.old }
        ensures at_element { AtElement (side_of self.now) (elems_of c.entry) parent grandparent result notes.old notes.new }
    {
        match self.step(c) {
            Step::Skips => Ok(()),
            Step::Fails => Err(Refusal::UnresolvedPath),
            Step::Resolves(place) => {
                note_path(notes, c.number, place);
                note_call(notes, grandparent, c.number, self.flags_at(place));
                Ok(())
            }
            Step::Enters => self.resolve_siblings(c.children(), call_number(c), parent, notes),
        }
    }

    // Resolves siblings and what is below them; the parent and the grandparent are given as calls.
    #[cycle(resolve)]
    fn resolve_siblings(
        &self,
        part: Part<'_>,
        parent: Option<usize>,
        grandparent: Option<usize>,
        notes: &mut [Noted],
    ) -> Result<(), Refusal>
        requires room { Room part parent grandparent notes.old }
        ensures notes_len_unchanged { length notes.new ≡ length notes.old }
        ensures at_siblings { AtSiblings (side_of self.now) (elems_of part.entry) parent grandparent result notes.old notes.new }
    {
        for c in part {
            self.resolve_element(c, parent, grandparent, notes)?;
        }
        Ok(())
    }

    // Notes what resolving finds at the elements of the tree.
    pub(crate) fn lay_notes(&self, notes: &mut [Noted]) -> Result<(), Refusal>
        requires { length notes.old ≡ length self.now.tree.words.now / 3 }
        ensures notes_len_unchanged { length notes.new ≡ length notes.old }
        ensures answer { result ≡ cond (is_unresolved (side_of self.now) (tree_of self.now.tree)) (err UnresolvedPath) ok }
        ensures laid { IfOk result (λ _. NotesOf (side_of self.now) (tree_of self.now.tree) notes.new) }
    {
        notes.fill(Noted::NOTHING);
        self.resolve_siblings(self.tree.root(), None, None, notes)
    }
}
