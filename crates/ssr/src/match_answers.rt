// The answer of the operation that matches.
ghost use Rattle.std.specs.Prelude.{◌≡◌};
ghost use Rattle.ssr.specs.Matches.{bound_numbers, nothing_matched, node_matched};

use answers::NodeMatch;
use captures::Binding;
use errors::Refusal;

// A placeholder's binding: whether it is bound, its bytes in the file, and what a receiver has.
#[repr(C)]
#[derive(Clone, Copy)]
pub struct BoundPlaceholder {
    pub bound: u32,
    pub start: u32,
    pub end: u32,
    pub stars: u32,
    pub self_kind: u32,
}

// The answer of matching one node: 01's number, whether the node matches, how many bytes its comments have, and the bindings in pattern order.
#[repr(C)]
#[derive(Clone, Copy)]
pub struct MatchedNode {
    pub refusal: u32,
    pub matched: u32,
    pub length: usize,
    pub bindings: [BoundPlaceholder; 8],
}

const UNBOUND: BoundPlaceholder = BoundPlaceholder {
    bound: 0,
    start: 0,
    end: 0,
    stars: 0,
    self_kind: 0,
};

// One binding.
impl From<Option<Binding>> for BoundPlaceholder {
    ghost from_gives = { λ binding numbers. numbers ≡ bound_numbers binding };

    fn from(binding: Option<Binding>) -> BoundPlaceholder {
        match binding {
            None => UNBOUND,
            Some(bound) => BoundPlaceholder {
                bound: 1,
                start: bound.start,
                end: bound.end,
                stars: bound.stars,
                self_kind: u32::from(bound.self_kind),
            },
        }
    }
}

// The answer where there is no match, or a refusal.
fn no_match(refusal: u32) -> MatchedNode
    ensures { result ≡ nothing_matched refusal }
{
    MatchedNode {
        refusal,
        matched: 0,
        length: 0,
        bindings: [UNBOUND; 8],
    }
}

// Matching one node.
impl From<Result<Option<NodeMatch>, Refusal>> for MatchedNode {
    ghost from_gives = { λ answer numbers. numbers ≡ node_matched answer };

    fn from(answer: Result<Option<NodeMatch>, Refusal>) -> MatchedNode {
        match answer {
            Err(refused) => no_match(u32::from(refused)),
            Ok(None) => no_match(0),
            Ok(Some(found)) => {
                let bindings = found.bindings;
                MatchedNode {
                    refusal: 0,
                    matched: 1,
                    length: found.comments_length,
                    bindings: bindings.map(BoundPlaceholder::from),
                }
            }
        }
    }
}
