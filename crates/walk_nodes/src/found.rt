// The candidates that were found.
ghost use Rattle.std.specs.Prelude.{◌≡◌, ◌≤◌, [], ◌∷◌, ◌++◌, length, OnSome, IfNone};
ghost use Rattle.walk_nodes.specs.WalkCandidates.{words_of};

use arrayvec::ArrayVec;
use std::marker::Model;

// Two words to each, as a job takes them; up to 1,024 of them.
#[derive(Drop)]
pub struct Found {
    pairs: ArrayVec<[u32; 2], 1024>,
}

impl Model for Found {
    ghost use Rattle.std.specs.Prelude.{◌≡◌, List, map};
    ghost use Rattle.candidates.specs.Candidates.{Candidate, candidate_at};
    ghost use Rattle.walk_nodes.specs.WalkCandidates.{pair_of};

    ghost Value = { List Candidate };

    ghost view = { λ f. map candidate_at f.pairs.items };

    ghost invariant = { λ f. f.pairs.items ≡ map pair_of (map candidate_at f.pairs.items) };
}

impl Found {
    // None yet.
    pub fn new() -> Found
        ensures { result ≡ [] }
    {
        Found {
            pairs: ArrayVec::new(),
        }
    }

    // How many they are.
    pub fn len(&self) -> usize
        ensures value { result ≡ length self.now }
        ensures few { result ≤ 1024 }
    {
        self.pairs.len()
    }

    // Their words.
    #[tactic(auto, using(crate::proofs::FoundLaws::flat_words))]
    pub fn words(&self) -> &[u32]
        ensures { result.now ≡ words_of self.now }
    {
        self.pairs.as_slice().as_flattened()
    }

    // One candidate more, if there is room.
    #[tactic(auto, using(crate::proofs::FoundLaws::map_one))]
    pub fn push(&mut self, node: u32, rule: u32) -> Option<()>
        ensures pushed { OnSome result (self.new ≡ self.old ++ record { node = node; rule = rule } ∷ []) }
        ensures full { IfNone result ((self.new ≡ self.old) × (length self.old ≡ 1024)) }
    {
        self.pairs.try_push([node, rule]).ok()
    }
}
