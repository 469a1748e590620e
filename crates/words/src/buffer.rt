// The leaves of every writer. A public operation works in the used part of its buffer, so bytes beyond never change.
ghost use Rattle.std.specs.Prelude.{◌≡◌, ◌++◌, ◌-◌, length, take, replicate};
ghost use Rattle.words.specs.Buffer.{used_of, filled, place_after, laid_if_room, word_bytes};

// How many bytes of a buffer of n are used.
pub fn used(n: usize) -> usize
    ensures { result ≡ used_of n }
{
    n.min(1048576)
}

// Every byte from a place on becomes 0.
pub fn clear_from(out: &mut [u8], at: usize)
    ensures { out.new ≡ take at out.old ++ replicate (length out.old - at) 0 }
{
    if at < out.len() {
        out[at..].fill(0);
    }
}

// Ends an operation whose result is the first n bytes: 0 follows up to the end of the used part. A refusal has n = 0.
pub fn finish(out: &mut [u8], n: usize)
    ensures { out.new ≡ filled out.old (take n (take (used_of (length out.old)) out.old)) }
{
    let end = used(out.len());
    clear_from(&mut out[..end], n);
}

// Lays src at a place and gives the place behind it; where it does not fit, nothing changes. Byte by byte: a call for a few bytes costs more,
// and `memmove` is no name that the archive needs.
pub fn put(out: &mut [u8], at: usize, src: &[u8]) -> Option<usize>
    ensures value { result ≡ place_after (length out.old) at (length src.now) }
    ensures out_after { out.new ≡ laid_if_room out.old at src.now }
{
    let end = at.checked_add(src.len())?;
    if out.len() < end {
        return None;
    }
    for i in 0..src.len() {
        out[at + i] = src[i];
    }
    Some(end)
}

// Lays a word's four bytes, the lowest first.
pub fn put_word(out: &mut [u8], at: usize, w: u32) -> Option<usize>
    ensures value { result ≡ place_after (length out.old) at 4 }
    ensures out_after { out.new ≡ laid_if_room out.old at (word_bytes w) }
{
    put(out, at, &w.to_le_bytes())
}
