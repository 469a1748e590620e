// `Phase::First` of docs/src/src/matching.rs: "On the first phase, we perform cheap checks. No state is mutated and nothing is recorded." What it
// finds never changes an answer: most nodes cannot match, and this says so sooner. It goes along the pattern's siblings and down at the first
// pair of nodes whose children say more, and never back up.
pub mod kinds; // kinds.rt: the kinds of node that a pattern's root can match
pub mod checking; // checking.rt: whether a node can match
