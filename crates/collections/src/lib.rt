// A job's nested rows, as they are rendered: the texts of the rows are those of the collections (proofs/), and how far a row's nested rows
// reach.
#![tactic(auto)]

ghost use Rattle.std.specs.Prelude.{◌≡◌, ℕ, ◌≤◌, ◌<◌, length};
ghost use Rattle.nester.specs.Rows.{row_at, Held};
ghost use Rattle.collections.specs.Links.{Linked};

use nester::{Nesting, Row};

// Tells each row that holds others the number behind the last of them.
pub fn link_rows(rows: &mut [Row])
    requires few { length rows.old ≤ 1024 }
    requires held { Held rows.old (length rows.old) }
    requires by_index { (k : ℕ) → k < length rows.old → (row_at rows.old k).end ≡ 0 }
    ensures { Linked rows.old rows.new }
{
    for j in 0..rows.len() {
        if let Nesting::Inside { row, .. } = rows[j].state {
            rows[row as usize].end = (j + 1) as u16;
        }
    }
}
