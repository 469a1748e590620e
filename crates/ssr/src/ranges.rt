// The range that matches have to be in, as it is handed over.
ghost use Rattle.std.specs.Prelude.{◌≡◌};
ghost use Rattle.ssr.specs.Matches.{restriction};

use words::texts::Range;

// It is given unless the flag is 0.
pub fn restriction_of(given: u32, start: usize, end: usize) -> Option<Range>
    ensures { result ≡ restriction given start end }
{
    (given != 0).then_some(Range { start, end })
}
