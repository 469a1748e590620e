// What the file's facts say, by element.
ghost use Rattle.std.specs.Prelude.{◌≡◌};
ghost use Rattle.syntax.specs.Views.{elems_of, tree_of};
ghost use Rattle.captures.specs.Effects.{self_kind};
ghost use Rattle.matcher.specs.FileFacts.{resolves_to, calls_function, takes_self, self_kind_at, derefs, name_token};

use crate::Matcher;
use captures::SelfKind;
use facts::Sort;
use syntax::parts::Part;

impl<'a> Matcher<'a> {
    // Whether a path resolves to something.
    pub fn resolves_to(&self, element: usize, resolution: u32) -> bool
        ensures { result ≡ resolves_to self.now.facts.now element resolution }
    {
        self.facts
            .first(Sort::CodePath, element)
            .is_some_and(|fact| fact.first == resolution)
    }

    // Whether a method call calls a function.
    pub fn calls_function(&self, element: usize, function: u32) -> bool
        ensures { result ≡ calls_function self.now.facts.now element function }
    {
        self.facts
            .first(Sort::MethodCall, element)
            .is_some_and(|fact| fact.first == function)
    }

    // Whether that function takes self.
    pub fn takes_self(&self, element: usize) -> bool
        ensures { result ≡ takes_self self.now.facts.now element }
    {
        self.facts
            .first(Sort::MethodCall, element)
            .is_some_and(|fact| fact.second == 1)
    }

    // How it takes self.
    pub fn self_kind(&self, element: usize) -> SelfKind
        ensures { result ≡ self_kind_at self.now.facts.now element }
    {
        self.facts
            .first(Sort::MethodCall, element)
            .map_or(SelfKind::Owned, |fact| SelfKind::from(fact.third))
    }

    // How often an expression is dereferenced until it has a type.
    #[tactic(auto, using(crate::proofs::FactLaws::deref_start, crate::proofs::FactLaws::deref_step, crate::proofs::FactLaws::deref_end))]
    pub fn check_expr_type(&self, element: usize, wanted: u32) -> Option<u32>
        ensures { result ≡ derefs self.now.facts.now element wanted }
    {
        for step in 0..self.facts.count() as u32 {
            let fact = self.facts.find(Sort::Expression, element, step)?;
            if fact.second == wanted {
                return Some(step);
            }
        }
        None
    }

    // A record field's name; empty where it has none.
    #[tactic(auto, using(crate::proofs::NameLaws::alone_at, crate::proofs::NameLaws::no_name))]
    pub fn field_name(&self, element: usize) -> Part<'a>
        ensures { elems_of result ≡ name_token self.now.facts.now (tree_of self.now.tree) element }
    {
        let Some(fact) = self.facts.first(Sort::RecordField, element) else {
            return Part::new(&[]);
        };
        let name = self.tree.at(fact.first as usize);
        let end = name.words.len().min(3);
        Part {
            words: &name.words[..end],
            number: name.number,
        }
    }
}
