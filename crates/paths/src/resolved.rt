// A rule's tree whose paths were resolved: what its elements are as paths and as calls.
ghost use Rattle.std.specs.Prelude.{◌≡◌, ◌/◌, ◌≤◌, ◌<◌, length, IfSome};
ghost use Rattle.rust_code.specs.StandIns.{stand_in_position};
ghost use Rattle.paths.specs.Steps.{root_of};
ghost use Rattle.paths.specs.Resolved.{path_fact, refers_to_definition, path_at, call_at, resolving};

use crate::{Noted, RuleTree};
use errors::Refusal;
use facts::{Call, Fact, Facts, Sort};
use std::marker::Model;
use syntax::trees::Tree;

// A resolved tree of a rule. A clause sees what resolving looks at, and the tree's words.
#[derive(Drop)]
pub struct Resolved<'a> {
    rule_tree: RuleTree<'a>,
    notes: &'a [Noted],
}

impl<'a> Model for Resolved<'a> {
    ghost use Rattle.paths.specs.Steps.{SideTree};

    ghost Value = { SideTree };

    ghost use Rattle.syntax.specs.Views.{tree_of};
    ghost use Rattle.paths.specs.Trees.{side_of, side_tree};
    ghost use Rattle.paths.specs.Tables.{NotesOf};

    ghost view = { λ r. side_tree r.rule_tree };

    ghost invariant = { λ r. NotesOf (side_of r.rule_tree) (tree_of r.rule_tree.tree) r.notes.now };
}

impl<'a> RuleTree<'a> {
    ghost use Rattle.paths.specs.Trees.{side_tree};

    // Resolves the tree; what is found is noted in the first of a slice, one for each element.
    pub fn resolve(self, notes: &'a mut [Noted]) -> Result<Resolved<'a>, Refusal>
        requires { length self.tree.words.now / 3 ≤ length notes.old }
        ensures { result ≡ resolving (side_tree self.entry) }
    {
        let n = self.tree.len();
        self.lay_notes(&mut notes[..n])?;
        Ok(Resolved {
            rule_tree: self,
            notes: &notes[..n],
        })
    }
}

impl<'a> Resolved<'a> {
    // The tree.
    pub fn tree(&self) -> Tree<'a>
        ensures { result.words.now ≡ self.now.words }
    {
        self.rule_tree.tree
    }

    // Its text.
    pub fn code(&self) -> &'a [u8]
        ensures { result.now ≡ self.now.side.code }
    {
        self.rule_tree.code
    }

    // Its facts.
    pub fn facts(&self) -> &Facts<'a>
        ensures { result.now ≡ self.now.side.facts }
    {
        &self.rule_tree.facts
    }

    // The placeholder whose stand-in name a text is.
    pub fn find_stand_in(&self, name: &[u8]) -> Option<usize>
        ensures value { result ≡ stand_in_position self.now.side.placeholders.text self.now.side.placeholders.vars name.now }
        ensures low { IfSome result (λ slot. slot < 8) }
    {
        self.rule_tree.find_stand_in(name)
    }

    // The fact of an element that is a resolved path.
    pub fn path_fact(&self, element: usize) -> Option<Fact>
        ensures { result ≡ path_fact self.now.side (root_of self.now) element }
    {
        let place = self.notes.get(element)?.path?;
        self.rule_tree.facts.at(place as usize)
    }

    // Whether an element is a resolved path that refers to a definition.
    pub fn refers_to_definition(&self, element: usize) -> bool
        ensures { result ≡ refers_to_definition self.now.side (root_of self.now) element }
    {
        self.path_fact(element)
            .is_some_and(|fact| fact.second / 2 % 2 == 1)
    }

    // What an element resolves to as a path.
    pub fn path_at(&self, element: usize) -> Option<u32>
        ensures { result ≡ path_at self.now.side (root_of self.now) element }
    {
        Some(self.path_fact(element)?.first)
    }

    // What it is as a call: the function of the path that claims it, and its qualifier type.
    pub fn call_at(&self, element: usize) -> Option<Call>
        ensures { result ≡ call_at self.now.side (root_of self.now) element }
    {
        let path = self.notes.get(element)?.call? as usize;
        let facts = &self.rule_tree.facts;
        let function = facts.first(Sort::RulePath, path)?.first;
        let qualifier = facts.first(Sort::PatternPath, path).map(|fact| fact.first);
        Some(Call {
            function,
            qualifier,
        })
    }
}
