// A pair and its parts, and all pairs in turn.
ghost use Rattle.std.specs.Prelude.{◌≡◌, ◌^◌, ◌≤◌, ◌<◌, length};
ghost use Rattle.std.specs.Iterator.{YieldsFirst, item_count};
ghost use Rattle.fragments.specs.Directory.{row_count, is_directory};
ghost use Rattle.fragments.specs.Pairs.{pairs_of, part_of, next_pair, first_pair, pair_at, pairs_in, list_of, text_of, code_of, is_given, tree_of, facts_of, is_present};

use crate::directory;
use crate::directory::{ROW_LEN, Slice};
use crate::forms::{Form, Side};
use std::marker::Model;
use std::mem;
use tokens::TokenList;
use words::slices;

// The part that entry k of a row counts, of a slice that begins with the row's first.
fn part_of<'a, T>(row: &[u32], slice: Slice, from: &'a [T], k: usize) -> &'a [T]
    requires { k ≤ 26 }
    ensures { result.now ≡ part_of slice row.now from.now k }
{
    let start = slice.counted_before(row, k);
    slices::part_of(from, start, start + directory::entry(row, k))
}

// A pair: the directory from its row on, and the words and bytes from its first on.
#[derive(Drop)]
pub struct Pair<'a> {
    row: &'a [u32],
    words: &'a [u32],
    bytes: &'a [u8],
}

impl<'a> Model for Pair<'a> {
    ghost use Rattle.fragments.specs.Pairs.{Pair, pair_of};

    ghost Value = { Pair };

    ghost view = { λ p. pair_of p.row.now p.words.now p.bytes.now };
}

impl<'a> Pair<'a> {
    // The token list of a side.
    pub fn list(&self, side: Side) -> TokenList<'a>
        ensures words_value { result.words.now ≡ list_of side self.now }
        ensures text_value { result.text.now ≡ text_of side self.now }
    {
        let k = 4 * side as usize;
        TokenList {
            words: part_of(self.row, Slice::Words, self.words, k),
            text: part_of(self.row, Slice::Bytes, self.bytes, k + 1),
        }
    }

    // The code that a side's trees were parsed from.
    pub fn code(&self, side: Side) -> &'a [u8]
        ensures { result.now ≡ code_of side self.now }
    {
        part_of(self.row, Slice::Bytes, self.bytes, 4 * side as usize + 2)
    }

    // Whether a side's list is given; the pattern's always is.
    pub fn is_given(&self, side: Side) -> bool
        ensures { result ≡ is_given side self.now }
    {
        match side {
            Side::Pattern => true,
            Side::Template => directory::entry(self.row, 3) != 0,
        }
    }

    // The tree of a form on a side; without words it is absent.
    pub fn tree(&self, side: Side, form: Form) -> &'a [u32]
        ensures { result.now ≡ tree_of side form self.now }
    {
        let k = 4 * form as usize + 2 * side as usize + 7;
        part_of(self.row, Slice::Words, self.words, k)
    }

    // Whether that tree is there.
    pub fn is_present(&self, side: Side, form: Form) -> bool
        ensures { result ≡ is_present side form self.now }
    {
        !self.tree(side, form).is_empty()
    }

    // The facts of that tree.
    pub fn facts(&self, side: Side, form: Form) -> &'a [u32]
        ensures { result.now ≡ facts_of side form self.now }
    {
        let k = 4 * form as usize + 2 * side as usize + 8;
        part_of(self.row, Slice::Words, self.words, k)
    }

    // The pair behind this one.
    fn next(&self) -> Pair<'a>
        ensures pair { result ≡ next_pair self.now }
        ensures within { length result.words ≤ length self.now.words }
    {
        let words = Slice::Words.counted_before(self.row, ROW_LEN);
        let bytes = Slice::Bytes.counted_before(self.row, ROW_LEN);
        Pair {
            row: slices::tail(self.row, ROW_LEN),
            words: slices::tail(self.words, words),
            bytes: slices::tail(self.bytes, bytes),
        }
    }
}

// All pairs: the directory, and all words and bytes.
#[derive(Drop)]
pub struct Pairs<'a> {
    directory: &'a [u32],
    words: &'a [u32],
    bytes: &'a [u8],
}

impl<'a> Model for Pairs<'a> {
    ghost use Rattle.fragments.specs.Pairs.{Pairs, pairs_of};

    ghost Value = { Pairs };

    ghost view = { λ ps. pairs_of ps.directory.now ps.words.now ps.bytes.now };
}

impl<'a> Pairs<'a> {
    pub fn new(directory: &'a [u32], words: &'a [u32], bytes: &'a [u8]) -> Pairs<'a>
        ensures { result ≡ pairs_of directory.now words.now bytes.now }
    {
        Pairs {
            directory,
            words,
            bytes,
        }
    }

    // How many rows there are.
    pub fn len(&self) -> usize
        ensures count { result ≡ row_count self.now.directory }
        ensures few { result < 2 ^ 59 }
    {
        self.directory.len() / ROW_LEN
    }

    // How many words stand beside the directory.
    pub fn word_count(&self) -> usize
        ensures { result ≡ length self.now.words }
    {
        self.words.len()
    }

    // Whether the directory is well-formed for the words and bytes beside it.
    pub fn is_well_formed(&self) -> bool
        ensures { result ≡ is_directory self.now.directory self.now.words self.now.bytes }
    {
        directory::is_directory(self.directory, self.words, self.bytes)
    }

    fn first(&self) -> Pair<'a>
        ensures { result ≡ first_pair self.now }
    {
        Pair {
            row: self.directory,
            words: self.words,
            bytes: self.bytes,
        }
    }

    // The pair of a number.
    pub fn at(&self, number: usize) -> Pair<'a>
        ensures pair { result ≡ pair_at number self.now }
        ensures within { length result.words ≤ length self.now.words }
    {
        let mut pair = self.first();
        for passed in 0..number {
            pair = pair.next();
        }
        pair
    }

    pub fn iter(&self) -> Iter<'a>
        ensures pairs { result ≡ pairs_in self.now }
        ensures few { length result < 2 ^ 59 }
    {
        Iter {
            left: self.len(),
            pair: self.first(),
        }
    }
}

// The pairs that are left, of those in turn.
#[derive(Drop)]
pub struct Iter<'a> {
    left: usize,
    pair: Pair<'a>,
}

impl<'a> Model for Iter<'a> {
    ghost use Rattle.std.specs.Prelude.{List};
    ghost use Rattle.fragments.specs.Pairs.{Pair, pairs_from};

    ghost Value = { List Pair };

    ghost view = { λ it. pairs_from it.left it.pair };
}

impl<'a> Iterator for Iter<'a> {
    type Item = Pair<'a>;

    ghost next_gives = { YieldsFirst (λ it. it) };

    ghost remaining = { item_count (λ it. it) };

    fn next(&mut self) -> Option<Pair<'a>> {
        if self.left == 0 {
            return None;
        }
        self.left -= 1;
        let behind = self.pair.next();
        Some(mem::replace(&mut self.pair, behind))
    }
}

impl<'a, 'b> IntoIterator for &'b Pairs<'a> {
    type Item = Pair<'a>;

    type IntoIter = Iter<'a>;

    ghost into_iter_gives = { λ pairs it. (it ≡ pairs_in pairs.now) × (length it < 2 ^ 59) };

    fn into_iter(self) -> Iter<'a> {
        self.iter()
    }
}
