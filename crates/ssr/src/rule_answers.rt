// The answers of the operations on rules.
ghost use Rattle.std.specs.Prelude.{◌≡◌};
ghost use Rattle.ssr.specs.Rules.{rules_built, element_numbers, nothing_resolved, element_resolved};

use errors::Refusal;
use resolving::Element;
use rules::building::Built;
use rules::numbering::Rule;

// The answer of building rules: 01's number, how many rules are left, and the rule that was asked for, if it is found.
#[repr(C)]
#[derive(Clone, Copy)]
pub struct BuiltRules {
    pub refusal: u32,
    pub rules: usize,
    pub found: u32,
    pub pair: usize,
    pub form: usize,
    pub template: u32,
}

// Building rules.
impl From<Result<Built, Refusal>> for BuiltRules {
    ghost from_gives = { λ answer numbers. numbers ≡ rules_built answer };

    fn from(answer: Result<Built, Refusal>) -> BuiltRules {
        let none = BuiltRules {
            refusal: 0,
            rules: 0,
            found: 0,
            pair: 0,
            form: 0,
            template: 0,
        };
        match answer {
            Err(refused) => BuiltRules {
                refusal: u32::from(refused),
                ..none
            },
            Ok(Built { count, rule: None }) => BuiltRules {
                rules: count,
                ..none
            },
            Ok(
                Built {
                    count,
                    rule: Some(
                        Rule {
                            pair,
                            form,
                            template,
                        },
                    ),
                },
            ) => BuiltRules {
                refusal: 0,
                rules: count,
                found: 1,
                pair,
                form: form as usize,
                template: template as u32,
            },
        }
    }
}

// The answer of resolving: 01's number, whether the element is found, and what it is as a path and as a call.
#[repr(C)]
#[derive(Clone, Copy)]
pub struct ResolvedElement {
    pub refusal: u32,
    pub found: u32,
    pub resolved: u32,
    pub resolution: u32,
    pub call: u32,
    pub function: u32,
    pub typed: u32,
    pub qualifier_type: u32,
    pub contains_self: u32,
}

// The answer where no element is found, or the rules are refused.
fn no_element(refusal: u32) -> ResolvedElement
    ensures { result ≡ nothing_resolved refusal }
{
    ResolvedElement {
        refusal,
        found: 0,
        resolved: 0,
        resolution: 0,
        call: 0,
        function: 0,
        typed: 0,
        qualifier_type: 0,
        contains_self: 0,
    }
}

// An element that is found.
impl From<Element> for ResolvedElement {
    ghost from_gives = { λ element numbers. numbers ≡ element_numbers element };

    fn from(element: Element) -> ResolvedElement {
        let qualifier = element.call.and_then(|call| call.qualifier);
        ResolvedElement {
            refusal: 0,
            found: 1,
            resolved: u32::from(element.path.is_some()),
            resolution: element.path.unwrap_or(0),
            call: u32::from(element.call.is_some()),
            function: element.call.map_or(0, |call| call.function),
            typed: u32::from(qualifier.is_some()),
            qualifier_type: qualifier.unwrap_or(0),
            contains_self: u32::from(element.contains_self),
        }
    }
}

// Resolving.
impl From<Result<Option<Element>, Refusal>> for ResolvedElement {
    ghost from_gives = { λ answer numbers. numbers ≡ element_resolved answer };

    fn from(answer: Result<Option<Element>, Refusal>) -> ResolvedElement {
        match answer {
            Err(refused) => no_element(u32::from(refused)),
            Ok(None) => no_element(0),
            Ok(Some(element)) => element.into(),
        }
    }
}
