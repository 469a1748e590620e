// Marks: what a rule says of the elements of its pattern.
ghost use Rattle.std.specs.Prelude.{◌≡◌, ◌<◌, ◌≤◌, ◌/◌, length, take, ℕ, slice_get, Some, IfSome};
ghost use Rattle.paths.specs.Steps.{root_of};
ghost use Rattle.matcher.specs.declared.marks.Mark.{Mark};
ghost use Rattle.prepared.specs.Placeholders.{placeholder_at};
ghost use Rattle.prepared.specs.Rules.{Says, Marked};

use matcher::marks::Mark;
use paths::Resolved;

// The placeholder that an element is.
fn placeholder_at(resolved: &Resolved<'_>, element: usize) -> Option<usize>
    ensures value { result ≡ placeholder_at resolved.now.side (root_of resolved.now) element }
    ensures low { IfSome result (λ slot. slot < 8) }
{
    let ident = resolved.tree().element(element).only_ident();
    resolved.find_stand_in(ident.text(resolved.code()))
}

// What the rule says of an element.
#[tactic(auto, using(crate::proofs::MarkLaws::path_low, crate::proofs::MarkLaws::call_low))]
fn mark_of(resolved: &Resolved<'_>, element: usize) -> Mark
    ensures { Says resolved.now.side (root_of resolved.now) element result }
{
    Mark::new(
        placeholder_at(resolved, element),
        resolved.path_at(element),
        resolved.call_at(element),
    )
}

// Marks the elements of a resolved pattern, one after the other.
fn lay_marks(resolved: &Resolved<'_>, marks: &mut [Mark])
    requires { length marks.old ≡ length resolved.now.words / 3 }
    ensures marks_len_unchanged { length marks.new ≡ length marks.old }
    ensures says { (e : ℕ) (m : Mark) → slice_get marks.new e ≡ Some m → Says resolved.now.side (root_of resolved.now) e m }
{
    for (element, mark) in marks.iter_mut().enumerate() {
        *mark = mark_of(resolved, element);
    }
}

// Marks the elements of a resolved pattern, in the first of a slice, one for each.
pub fn mark_pattern(resolved: &Resolved<'_>, marks: &mut [Mark])
    requires { length resolved.now.words / 3 ≤ length marks.old }
    ensures marks_len_unchanged { length marks.new ≡ length marks.old }
    ensures marked { Marked resolved.now.side (root_of resolved.now) (take (length resolved.now.words / 3) marks.new) }
{
    let n = resolved.tree().len();
    lay_marks(resolved, &mut marks[..n]);
}
