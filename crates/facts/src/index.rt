// A list of facts with its index: the facts in the order of their keys. An entry is a key and the fact's place in the list, as one number.
ghost use Rattle.std.specs.Prelude.{◌≡◌, ◌+◌, ◌<◌, ◌≤◌, ◌*◌, ◌/◌, not, ◌&&◌, length, slice_get};
ghost use Rattle.facts.specs.Facts.{facts_of, selector, numbered_place, place_of, fact_by, has_repeated, has_gap};
ghost use Rattle.facts.specs.Keys.{key_number, key_of, AreLow, InRange, entries_from, is_later_key, AreStarts};
ghost use Rattle.sorting.specs.Sorted.{below, Rising};

use crate::{Fact, Sort};
use std::marker::Model;
use words::slices;

// An element, a sort, and a step or module as one number.
fn key_number(sort: u32, element: usize, select: u32) -> u64
    requires { (sort < 16) × (element < 16384) × (select < 268435456) }
    ensures { result ≡ key_number sort element select }
{
    ((element as u64) * 16 + (sort as u64)) * 0x1000_0000 + (select as u64)
}

// The step or module of a fact, where its sort has one; 0 of another.
fn selector_of(fact: Fact) -> u32
    ensures { result ≡ selector fact }
{
    match Sort::try_from(fact.sort) {
        Ok(Sort::Expression | Sort::TemplatePath) => fact.first,
        _ => 0,
    }
}

// The key of a fact.
fn key_of(fact: Fact) -> u64
    requires { InRange fact }
    ensures { (result ≡ key_of fact) × (result < 70368744177664) }
{
    key_number(fact.sort, fact.element, selector_of(fact))
}

// Lays the entries of facts, in the order of the list.
fn lay_entries(words: &[u32], entries: &mut [u64])
    requires { (length entries.old ≡ length (facts_of words.now)) × (length entries.old ≤ 16383) × AreLow (facts_of words.now) }
    ensures { entries.new ≡ entries_from 0 (facts_of words.now) }
{
    for (place, entry) in entries.iter_mut().enumerate() {
        let fact = Fact::read(slices::tail(words, 4 * place));
        *entry = key_of(fact) * 0x4000 + (place as u64);
    }
}

// How many entries are lower than a number, where those before a place are.
#[tactic(auto, using(crate::proofs::StartLaws::goes_past, crate::proofs::StartLaws::stops_here, crate::proofs::StartLaws::stops_behind))]
fn pass_lower(index: &[u64], from: usize, number: u64) -> usize
    requires { Rising index.now × (from ≤ below number index.now) }
    ensures { result ≡ below number index.now }
{
    for place in from..index.len() {
        if number <= index[place] {
            return place;
        }
    }
    index.len()
}

// Lays of each element how many entries are lower than all of its own can be.
#[tactic(auto, using(crate::proofs::StartLaws::below_rises))]
fn lay_starts(index: &[u64], starts: &mut [u16])
    requires { Rising index.now × (length index.now ≤ 16383) × (length starts.old ≤ 16384) }
    ensures { AreStarts starts.new index.now }
{
    let mut place = 0;
    for element in 0..starts.len() {
        place = pass_lower(index, place, element as u64 * 0x4000_0000_0000);
        starts[element] = place as u16;
    }
}

// A place in an index that no entry of an element stands before: where the first would stand, where that is known.
fn start_of(index: &[u64], starts: &[u16], element: usize) -> usize
    requires { AreStarts starts.now index.now }
    ensures { result ≤ below (element * 70368744177664) index.now }
{
    if element < starts.len() {
        return starts[element] as usize;
    }
    0
}

// A place that none stands behind.
#[tactic(auto, using(sorting::proofs::Laws::below_length))]
fn end_of(index: &[u64], starts: &[u16], element: usize) -> usize
    requires { AreStarts starts.now index.now × (element < 16384) }
    ensures { (below ((element + 1) * 70368744177664) index.now ≤ result) × (result ≤ length index.now) }
{
    if element + 1 < starts.len() {
        return starts[element + 1] as usize;
    }
    index.len()
}

// How many entries are lower than a number, where all before a place are and none from another on.
#[tactic(auto, using(sorting::proofs::Laws::below_length))]
fn below_between(index: &[u64], from: usize, to: usize, number: u64) -> usize
    requires rising { Rising index.now }
    requires between { (from ≤ below number index.now) × (below number index.now ≤ to) × (to ≤ length index.now) }
    ensures { result ≡ below number index.now }
{
    from + sorting::below(&index[from..to], number)
}

// The same of a number that an entry of an element can have: only those of the element are looked at, where it is known where these begin and end.
fn find_below(index: &[u64], starts: &[u16], element: usize, number: u64) -> usize
    requires starts { Rising index.now × AreStarts starts.now index.now }
    requires of_element { (element < 16384) × (element * 70368744177664 ≤ number) × (number ≤ (element + 1) * 70368744177664) }
    ensures { result ≡ below number index.now }
{
    below_between(
        index,
        start_of(index, starts, element),
        end_of(index, starts, element),
        number,
    )
}

// Whether a key is that of a later step than 0.
fn is_later_key(key: u64) -> bool
    ensures { result ≡ is_later_key key }
{
    (key / 0x1000_0000 % 16 == Sort::Expression as u64) & (0 < key % 0x1000_0000)
}

// Facts and their index, with the places in it where the entries of each element begin. A clause sees the list's words.
#[derive(Drop)]
pub struct Facts<'a> {
    words: &'a [u32],
    index: &'a [u64],
    starts: &'a [u16],
}

// What an index is made in: an entry a fact, and a start an element.
#[derive(Drop)]
pub struct IndexTables<'a> {
    pub entries: &'a mut [u64],
    pub starts: &'a mut [u16],
}

impl<'a> Model for Facts<'a> {
    ghost use Rattle.std.specs.Prelude.{ℕ, List};

    ghost Value = { List ℕ };

    ghost use Rattle.facts.specs.Keys.{IsIndex};

    ghost view = { λ f. f.words.now };

    ghost invariant = { λ f. IsIndex f.words.now f.index.now f.starts.now };
}

impl<'a> Facts<'a> {
    // The facts of a list, whose index is made in the first of the entries, and in the starts of as many elements as there are starts.
    pub fn index(words: &'a [u32], index: IndexTables<'a>) -> Facts<'a>
        requires few { (length words.now / 4 ≤ 16383) × (length words.now / 4 ≤ length index.entries.now) }
        requires starts_len { length index.starts.now ≤ 16384 }
        requires low { AreLow (facts_of words.now) }
        ensures { result ≡ words.now }
    {
        let (room, starts) = (index.entries, index.starts);
        let entries = &mut room[..words.len() / 4];
        lay_entries(words, entries);
        sorting::sort(entries);
        lay_starts(entries, starts);
        Facts {
            words,
            index: entries,
            starts,
        }
    }

    // How many facts there are.
    pub fn count(&self) -> usize
        ensures value { result ≡ length (facts_of self.now) }
        ensures few { result ≤ 16383 }
    {
        self.index.len()
    }

    // The fact at a place of the list.
    #[inline(always)]
    pub fn at(&self, place: usize) -> Option<Fact>
        ensures { result ≡ slice_get (facts_of self.now) place }
    {
        if place < self.index.len() {
            return Some(Fact::read(slices::tail(self.words, 4 * place)));
        }
        None
    }

    // The place of the first fact of a sort, by its number, at an element, with a step or module.
    pub fn place_numbered(&self, sort: u32, element: usize, select: u32) -> Option<usize>
        ensures { result ≡ numbered_place sort element select (facts_of self.now) }
    {
        let entries = self.index;
        if (16 <= sort) | (16384 <= element) | (0x1000_0000 <= select) {
            return None;
        }
        let key = key_number(sort, element, select);
        match entries.get(find_below(entries, self.starts, element, key * 0x4000)) {
            Some(entry) if *entry / 0x4000 == key => Some((*entry % 0x4000) as usize),
            _ => None,
        }
    }

    // The same of a sort.
    pub fn place(&self, sort: Sort, element: usize, select: u32) -> Option<usize>
        ensures { result ≡ place_of sort element select (facts_of self.now) }
    {
        self.place_numbered(sort.into(), element, select)
    }

    // That fact. Inlined, so that a caller reads only those of its values that it asks for.
    #[inline(always)]
    pub fn find(&self, sort: Sort, element: usize, select: u32) -> Option<Fact>
        ensures { result ≡ fact_by sort element select (facts_of self.now) }
    {
        self.at(self.place(sort, element, select)?)
    }

    // The first fact of a sort at an element, of a sort without steps and modules.
    #[inline(always)]
    pub fn first(&self, sort: Sort, element: usize) -> Option<Fact>
        ensures { result ≡ fact_by sort element 0 (facts_of self.now) }
    {
        self.find(sort, element, 0)
    }

    // Whether no fact is repeated and no step is left out: in the index, no key stands twice and every later step follows the one before.
    pub fn is_steady(&self) -> bool
        ensures { result ≡ (not (has_repeated (facts_of self.now)) && not (has_gap (facts_of self.now) (facts_of self.now))) }
    {
        let mut next = 0;
        for entry in self.index {
            let key = *entry / 0x4000;
            if (key + 1 == next) | (is_later_key(key) & (key != next)) {
                return false;
            }
            next = key + 1;
        }
        true
    }
}
