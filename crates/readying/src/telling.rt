// The paths of a template's pieces told by the places of their facts.
ghost use Rattle.std.specs.Prelude.{◌≡◌, ◌/◌, ◌≤◌, map, length};
ghost use Rattle.readying.specs.Ready.{told};

use facts::{Facts, Sort};
use templates::Piece;

// A piece as it is told in a module.
#[tactic(auto, using(crate::proofs::TellingLaws::low_place))]
fn told(facts: &Facts, module: u32, piece: Piece) -> Piece
    requires { length facts.now / 4 ≤ 16383 }
    ensures { result ≡ told facts.now «module» piece }
{
    let Piece::Path(element) = piece else {
        return piece;
    };
    match facts.place(Sort::TemplatePath, element as usize, module) {
        Some(place) => Piece::Path(place as u16),
        None => Piece::Text { start: 0, end: 0 },
    }
}

// Tells the paths among pieces in a module.
pub fn tell_paths(facts: &Facts, module: u32, pieces: &mut [Piece])
    requires { length facts.now / 4 ≤ 16383 }
    ensures { pieces.new ≡ map (told facts.now «module») pieces.old }
{
    for piece in pieces.iter_mut() {
        *piece = told(facts, module, *piece);
    }
}
