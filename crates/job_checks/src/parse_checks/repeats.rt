// Whether kind and text come twice among parses. Each kind and text has a mark; behind a parse whose mark no other has, none is looked at.
ghost use Rattle.std.specs.Prelude.{◌≡◌, ℕ, ◌<◌, ◌≤◌, ◌∷◌, get_or, is_some, IfSome};
ghost use Rattle.parses.specs.Parses.{lookup, is_repeated};
ghost use Rattle.job_checks.specs.Marks.{mark_from, mark_of, counted_at, Counted};

use parses::{Parse, Parses};
use words::slices;

// How many marks there are for many parses, and for more.
const FEW_MARKS: usize = 16384;

const MANY_MARKS: usize = 262144;

// The mark of bytes behind a first mark, of M marks.
#[tactic(auto, using(crate::proofs::MarkLaws::mark_step, crate::proofs::MarkLaws::mark_end))]
fn mark_from<const M: usize>(first: usize, text: &[u8]) -> usize
    requires { (first < M) × (M ≤ 262144) }
    ensures upper_bound { result < M }
    ensures value { result ≡ mark_from M first text.now }
{
    let mut mark = first;
    for byte in text {
        mark = (mark * 40503 + usize::from(*byte)) % M;
    }
    mark
}

// The mark of a parse's kind and text: texts may be long and many, so only the bytes at their ends count.
fn mark_of<const M: usize>(parse: &Parse<'_>) -> usize
    requires { (0 < M) × (M ≤ 262144) }
    ensures upper_bound { result < M }
    ensures value { result ≡ mark_of M parse.now.kind parse.now.text }
{
    let text = parse.text;
    let n = text.len();
    let first = (parse.kind as usize % M + n % M) % M;
    let front = mark_from::<M>(first, slices::part_of(text, 0, 32));
    mark_from::<M>(front, slices::part_of(text, n.saturating_sub(32), n))
}

// One more of a mark, up to two.
fn count_mark<const M: usize>(counts: &mut [u8; M], mark: usize)
    requires { mark < M }
    ensures { counts.new ≡ counted_at counts.old mark }
{
    if counts[mark] < 2 {
        counts[mark] += 1;
    }
}

// Counts the marks of all parses.
#[tactic(auto, using(crate::proofs::MarkLaws::counted_next, crate::proofs::MarkLaws::counted_all))]
fn count_marks<const M: usize>(parses: &Parses<'_>, counts: &mut [u8; M])
    requires few { (0 < M) × (M ≤ 262144) }
    requires none { (m : ℕ) → get_or counts.old m 0 ≡ 0 }
    ensures { Counted M counts.new parses.now }
{
    for parse in parses.iter() {
        count_mark(counts, mark_of::<M>(&parse));
    }
}

// Whether a parse behind the first has its kind and text; where marks are counted, none has where its mark is counted once.
#[tactic(auto, using(crate::proofs::MarkLaws::not_again))]
fn is_again<const M: usize>(
    first: &Parse<'_>,
    behind: &Parses<'_>,
    counts: Option<&[u8; M]>,
) -> bool
    requires few { (0 < M) × (M ≤ 262144) }
    requires counted { IfSome counts (λ c. Counted M c.now (first.now ∷ behind.now)) }
    ensures { result ≡ is_some (lookup behind.now first.now.kind first.now.text) }
{
    if let Some(counts) = counts {
        if counts[mark_of::<M>(first)] < 2 {
            return false;
        }
    }
    behind.find_parse(first.kind, first.text).is_some()
}

// Whether a later parse has the kind and text of one.
#[tactic(auto, unfolding(parses::specs::Parses::is_repeated))]
fn is_repeated_by<const M: usize>(parses: &Parses<'_>, counts: Option<&[u8; M]>) -> bool
    requires few { (0 < M) × (M ≤ 262144) }
    requires counted { IfSome counts (λ c. Counted M c.now parses.now) }
    ensures { result ≡ is_repeated parses.now }
{
    let mut rest = parses.iter();
    while let Some(first) = rest.next() {
        if is_again(&first, rest.as_parses(), counts) {
            return true;
        }
    }
    false
}

// Whether a later parse has the kind and text of one.
pub fn is_repeated(parses: &Parses<'_>) -> bool
    ensures { result ≡ is_repeated parses.now }
{
    is_repeated_by::<FEW_MARKS>(parses, None)
}

// The same by M marks.
fn is_repeated_by_marks<const M: usize>(parses: &Parses<'_>) -> bool
    requires { (0 < M) × (M ≤ 262144) }
    ensures { result ≡ is_repeated parses.now }
{
    let mut counts = [0; M];
    count_marks(parses, &mut counts);
    is_repeated_by(parses, Some(&counts))
}

// The same of many parses, by their marks. Clearing the counts of many marks takes longer than to look at a thousand parses.
pub fn is_repeated_among_many(parses: &Parses<'_>, words: usize) -> bool
    ensures { result ≡ is_repeated parses.now }
{
    if words < 8192 {
        return is_repeated_by_marks::<FEW_MARKS>(parses);
    }
    is_repeated_by_marks::<MANY_MARKS>(parses)
}
