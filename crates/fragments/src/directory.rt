// A row of the directory is 27 lengths. A function that takes a row takes the directory from there on.
ghost use Rattle.std.specs.Prelude.{◌≡◌, true, ◌≤◌, ◌+◌, ◌*◌, IfSome, IfNone};
ghost use Rattle.fragments.specs.declared.directory.Slice.TheVariants.{Words, Bytes};
ghost use Rattle.fragments.specs.Directory.{entry, counts, count_at, before, counted, is_row, row_count, add_up, is_directory};

use words::{fields, slices};

// How many entries a row has.
pub const ROW_LEN: usize = 27;

// Which of the two slices beside the directory a part stands in.
#[derive(Clone, Copy)]
pub enum Slice {
    Words,
    Bytes,
}

// Entry k of a row.
pub fn entry(row: &[u32], k: usize) -> usize
    ensures value { result ≡ entry row.now k }
    ensures upper_bound { result ≤ 4294967295 }
{
    fields::word(row, k) as usize
}

impl Slice {
    // Whether entry k counts what stands in this slice.
    fn is_counted(self, k: usize) -> bool
        ensures { result ≡ counts self k }
    {
        match self {
            Slice::Words => k == 0 || k == 4 || 7 <= k,
            Slice::Bytes => k == 1 || k == 2 || k == 5 || k == 6,
        }
    }

    // How much of this slice entry k counts.
    fn count_at(self, row: &[u32], k: usize) -> usize
        ensures value { result ≡ count_at self k row.now }
        ensures upper_bound { result ≤ 4294967295 }
    {
        if self.is_counted(k) { entry(row, k) } else { 0 }
    }

    // How much of this slice the entries before k count.
    pub fn counted_before(self, row: &[u32], k: usize) -> usize
        requires { k ≤ 27 }
        ensures value { result ≡ before self k row.now }
        ensures upper_bound { result ≤ 4294967295 * 27 }
    {
        let mut sum = 0;
        for i in 0..k {
            sum += self.count_at(row, i);
        }
        sum
    }
}

// Whether a row says of its template what it may.
fn is_row(row: &[u32]) -> bool
    ensures { result ≡ is_row row.now }
{
    match entry(row, 3) {
        1 => true,
        0 => entry(row, 4) == 0 && entry(row, 5) == 0 && entry(row, 6) == 0,
        _ => false,
    }
}

// How many words and bytes are left behind a row; none where it is no row or counts more.
fn left_behind(row: &[u32], words: usize, bytes: usize) -> Option<(usize, usize)>
    ensures fits { IfSome result (λ left. (is_row row.now ≡ true) × (left.0 + counted Words row.now ≡ words) × (left.1 + counted Bytes row.now ≡ bytes)) }
    ensures misfit { IfNone result (is_row row.now ≡ true → counted Words row.now ≤ words → counted Bytes row.now ≤ bytes → ⊥) }
{
    if !is_row(row) {
        return None;
    }
    let words_left = words.checked_sub(Slice::Words.counted_before(row, ROW_LEN))?;
    let bytes_left = bytes.checked_sub(Slice::Bytes.counted_before(row, ROW_LEN))?;
    Some((words_left, bytes_left))
}

// Whether rows count exactly these words and bytes. What is left is counted down, so no sum is too large.
fn add_up(directory: &[u32], words: usize, bytes: usize) -> bool
    ensures { result ≡ add_up (row_count directory.now) directory.now words bytes }
{
    let mut left = (words, bytes);
    for row in directory.chunks_exact(ROW_LEN) {
        match left_behind(row, left.0, left.1) {
            Some(behind) => left = behind,
            None => return false,
        }
    }
    left == (0, 0)
}

// Whether a directory is well-formed for the words and bytes beside it.
#[tactic(auto, unfolding(crate::specs::Directory::is_directory))]
pub fn is_directory(directory: &[u32], words: &[u32], bytes: &[u8]) -> bool
    ensures { result ≡ is_directory directory.now words.now bytes.now }
{
    directory.len() % ROW_LEN == 0 && add_up(directory, words.len(), bytes.len())
}
