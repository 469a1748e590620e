// Whether a template's paths can be rendered where a node was matched.
ghost use Rattle.std.specs.Prelude.{◌≡◌};
ghost use Rattle.syntax.specs.Trees.{size};
ghost use Rattle.paths.specs.Steps.{root_of};
ghost use Rattle.get_match.specs.Templates.{renders_at, renders_below, renders};

use facts::{Facts, Sort};
use paths::Resolved;

// Whether an element of the template, where it is a resolved path that refers to a definition, has a text for a module.
fn renders_at(template: &Resolved<'_>, element: usize, module: u32) -> bool
    ensures { result ≡ renders_at template.now «module» element }
{
    !template.refers_to_definition(element)
        || template
            .facts()
            .find(Sort::TemplatePath, element, module)
            .is_some()
}

// Whether all elements have.
#[tactic(auto, using(crate::proofs::TemplateLaws::renders_none, crate::proofs::TemplateLaws::renders_next, crate::proofs::TemplateLaws::renders_not))]
fn render_all(template: &Resolved<'_>, module: u32) -> bool
    ensures { result ≡ renders_below (size (root_of template.now)) template.now «module» }
{
    for element in 0..template.tree().len() {
        if !renders_at(template, element, module) {
            return false;
        }
    }
    true
}

// Whether the matched node has a module, and all elements of the template have their texts for it.
pub fn render_template_paths(template: &Resolved<'_>, facts: &Facts<'_>, node: usize) -> bool
    ensures { result ≡ renders template.now facts.now node }
{
    match facts.first(Sort::Node, node) {
        Some(fact) => render_all(template, fact.first),
        None => false,
    }
}
