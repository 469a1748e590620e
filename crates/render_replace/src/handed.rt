// What a job hands to rendering, and what rendering works in.
ghost use Rattle.std.specs.Prelude.{◌≤◌};

use nester::Row;
use parses::Parses;
use rule_match::preparing::MatchTables;
use rule_paths::ResolvedRules;
use std::marker::Model;
use templates::Piece;
use trees::File;
use words::texts::Range;

// Rules that passed their checks, with their fact text, the file, the range that matches have to be in, the parses, and the rows.
#[derive(Drop)]
pub struct Handed<'r, 'a, const N: usize> {
    pub rules: &'r ResolvedRules<'a, N>,
    pub fact_text: &'r [u8],
    pub file: &'r File<'a>,
    pub range: Option<Range>,
    pub parses: &'r Parses<'a>,
    pub rows: &'r [Row],
}

impl<'r, 'a, const N: usize> Model for Handed<'r, 'a, N> {
    ghost use Rattle.checks.specs.Given.{file_in};
    ghost use Rattle.render_replace.specs.Worlds.{Handed as Shape, handed_of};

    ghost Value = { Shape };

    ghost view = { λ h. handed_of h.rules.now (file_in h.file.now) h.range h.fact_text.now h.parses.now h.rows.now };

    ghost use Rattle.render_replace.specs.Worlds.{Checked};

    ghost invariant = { λ h. Checked h.rules.now };
}

// What matching works in, and room for the pieces of the template at hand; there is room for N of each.
#[derive(Drop)]
pub struct RenderTables<const N: usize> {
    pub matching: MatchTables<N>,
    pub pieces: [Piece; N],
    pub ghost few: { N ≤ 16384 },
}

impl<const N: usize> RenderTables<N> {
    // Tables of zeros alone: other values would be laid on the stack once more, beside the tables, and then copied.
    pub fn new() -> Self
        requires { N ≤ 16384 }
    {
        RenderTables {
            matching: MatchTables::new(),
            pieces: [Piece::Text { start: 0, end: 0 }; N],
        }
    }
}
