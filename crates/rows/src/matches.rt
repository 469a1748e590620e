// The rows.
ghost use Rattle.std.specs.Prelude.{◌≡◌, true, false, ℕ, ◌+◌, ◌≤◌, ◌<◌, length, MatchOption};
ghost use Rattle.rendering.specs.Texts.{prefix};
ghost use Rattle.rows.specs.Rows.{is_inside, is_nested};

use captures::{Binding, SelfKind};
use nester::{Nesting, Row};

// Whether a row is nested in a slot of row k.
pub fn is_inside(row: &Row, k: usize, slot: usize) -> bool
    ensures { result ≡ is_inside k slot row.now.state }
{
    match row.state {
        Nesting::Inside {
            row: holder,
            slot: taken,
        } => (holder as usize == k) & (taken as usize == slot),
        _ => false,
    }
}

// The first row from j on, and before the end, that is nested in a slot of row k.
pub fn next_nested(rows: &[Row], k: usize, slot: usize, j: usize, end: usize) -> Option<usize>
    ensures { MatchOption result
        ((i : ℕ) → j ≤ i → i < end → is_nested rows.now k slot i ≡ false)
        (λ n. (j ≤ n) × (n < end) × (is_nested rows.now k slot n ≡ true)
        × ((i : ℕ) → j ≤ i → i < n → is_nested rows.now k slot i ≡ false)) }
{
    for i in j..end.min(rows.len()) {
        if is_inside(&rows[i], k, slot) {
            return Some(i);
        }
    }
    None
}

// How many bytes the prefix of a placeholder has.
pub fn prefix_length(binding: &Binding, is_receiver: bool) -> usize
    ensures { result ≡ length (prefix binding.now is_receiver) }
{
    if is_receiver {
        return 0;
    }
    let stars = binding.stars as usize;
    match binding.self_kind {
        SelfKind::Owned => stars,
        SelfKind::Ref => 1 + stars,
        SelfKind::RefMut => 5 + stars,
    }
}
