// Checking a pair: `validate_rule` of docs/src/src/parsing.rs, over token lists.
#![tactic(auto)]

ghost use Rattle.std.specs.Prelude.{◌≡◌, option_map};
ghost use Rattle.tokens.specs.Tokens.{parts_of};
ghost use Rattle.parsing.specs.Patterns.{var_of};
ghost use Rattle.parsing.specs.Vars.{vars_of};
ghost use Rattle.validating.specs.Pairs.{has_constraint, defines, defines_all, checked_pair, pair_outcome};

use errors::Refusal;
use parsing::patterns::{Pattern, Placeholder};
use parsing::reading;
use tokens::TokenList;

// Whether the pattern has the name of a placeholder of the template.
fn defines(pattern: &Pattern<'_>, template_text: &[u8], placeholder: &Placeholder) -> bool
    ensures { result ≡ defines pattern.now.text.now (vars_of pattern.now) template_text.now (var_of placeholder.now) }
{
    let name = placeholder.name.of(template_text);
    pattern.find_name(name).is_some()
}

// Whether every placeholder of the template has its name in the pattern.
fn defines_all(pattern: &Pattern<'_>, template: &Pattern<'_>) -> bool
    ensures { result ≡ defines_all pattern.now.text.now (vars_of pattern.now) template.now.text.now (vars_of template.now) }
{
    let text = template.text;
    template
        .placeholders
        .as_slice()
        .iter()
        .all(|p| defines(pattern, text, p))
}

// Whether one of the placeholders has a constraint.
fn has_constraint(template: &Pattern<'_>) -> bool
    ensures { result ≡ has_constraint (vars_of template.now) }
{
    template
        .placeholders
        .as_slice()
        .iter()
        .any(|p| !p.nots.is_empty())
}

// Two lists that were read: 14, then 15.
fn check_template(pattern: &Pattern<'_>, template: &Pattern<'_>) -> Result<(), Refusal>
    ensures { result ≡ checked_pair pattern.now.text.now (vars_of pattern.now) template.now.text.now (vars_of template.now) }
{
    if has_constraint(template) {
        return Err(Refusal::TemplateConstraint);
    }
    if defines_all(pattern, template) {
        return Ok(());
    }
    Err(Refusal::UndefinedPlaceholder)
}

// Checking a pair: 1 to 13 of either list, then 14, then 15; the pattern alone where no template is given.
pub fn validate_rule(pattern: TokenList, template: Option<TokenList>) -> Result<(), Refusal>
    ensures { result ≡ pair_outcome pattern.entry.words.now pattern.entry.text.now (option_map parts_of template.entry) }
{
    let Some(template) = template else {
        reading::parse_pattern(pattern)?;
        return Ok(());
    };
    match (
        reading::parse_pattern(pattern),
        reading::parse_pattern(template),
    ) {
        (Ok(p), Ok(t)) => check_template(&p, &t),
        (Err(r), Err(s)) => errors::lowest(Err(r), Err(s)),
        (Err(r), Ok(_)) | (Ok(_), Err(r)) => Err(r),
    }
}
