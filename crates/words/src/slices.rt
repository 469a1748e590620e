// Parts of a slice, of words or of bytes. Every function is total: what is no range of the slice is the empty part.
ghost use Rattle.std.specs.Prelude.{◌≡◌, drop};
ghost use Rattle.words.specs.Texts.{part};

// What stands from a place on; nothing past the end.
pub fn tail<T>(t: &[T], start: usize) -> &[T]
    ensures { result.now ≡ drop start t.now }
{
    t.get(start..).unwrap_or(&[])
}

// What stands from one place up to another.
#[tactic(auto, unfolding(crate::specs::Texts::part))]
pub fn part_of<T>(t: &[T], start: usize, end: usize) -> &[T]
    ensures { result.now ≡ part t.now start end }
{
    t.get(start..end).unwrap_or(&[])
}
