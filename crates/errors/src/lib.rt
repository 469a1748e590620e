// The refusals of document 01, as an enum instead of the crate's message texts (docs/src/src/errors.rs).
#![tactic(auto)]

ghost use Rattle.std.specs.Prelude.{◌≡◌, Err, []};
ghost use Rattle.words.specs.Buffer.{filled};
ghost use Rattle.errors.specs.Refusals.{number_of, outcome_number, lowest_of};

use words::buffer;

// One case for each number of 01's section "Refusals by operation", in its order.
#[derive(Clone, Copy)]
pub enum Refusal {
    // Reading tokens.
    MalformedList = 1,
    EndsAfterBrace = 2,
    EndsBeforeClosingBrace = 3,
    UnexpectedToken = 4,
    NeitherNameNorBrace = 5,
    NoName = 6,
    EndsBeforeConstraint = 7,
    UnsupportedConstraint = 8,
    MissingParenthesis = 9,
    NoKindIdent = 10,
    UnknownKind = 11,
    RepeatedName = 12,
    NinthPlaceholder = 13,
    // Checking a pair.
    TemplateConstraint = 14,
    UndefinedPlaceholder = 15,
    // Writing raw code, and a match's comments.
    DoesNotFit = 16,
    // Building rules.
    NoForm = 17,
    // Trees with facts.
    TreeTooLarge = 18,
    MalformedTree = 19,
    TreeTooDeep = 20,
    MalformedFacts = 21,
    // Resolving.
    UnresolvedPath = 22,
    // Matching one node.
    NoSuchNodeOrRule = 23,
    // A job and the whole-file walk.
    TooManyRulesOrCandidates = 24,
    NoSuchCandidate = 25,
    RepeatedCandidate = 26,
    NoTemplate = 27,
    MalformedParses = 28,
    UnboundPlaceholder = 29,
    NoRoom = 30,
}

// The refusal's number in document 01.
impl From<Refusal> for u32 {
    ghost from_gives = { λ refusal number. number ≡ number_of refusal };

    fn from(refusal: Refusal) -> u32 {
        refusal as u32
    }
}

// The number of what a check answers: the refusal's, 0 where nothing is refused.
pub fn outcome_number(outcome: Result<(), Refusal>) -> u32
    ensures { result ≡ outcome_number outcome }
{
    match outcome {
        Ok(()) => 0,
        Err(r) => r.into(),
    }
}

// The refusal with the lower number, where both refuse.
pub fn lowest(a: Result<(), Refusal>, b: Result<(), Refusal>) -> Result<(), Refusal>
    ensures { result ≡ lowest_of a b }
{
    match (a, b) {
        (Err(r), Err(s)) if u32::from(s) < u32::from(r) => Err(s),
        (Err(r), _) => Err(r),
        (Ok(()), other) => other,
    }
}

// A refusal that leaves the buffer all 0.
pub fn refuse<T>(refusal: Refusal, out: &mut [u8]) -> Result<T, Refusal>
    ensures value { result ≡ Err refusal }
    ensures out_after { out.new ≡ filled out.old [] }
{
    buffer::finish(out, 0);
    Err(refusal)
}
