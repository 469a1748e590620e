// `attempt_match_node` of docs/src/src/matching.rs and the functions that it calls and that call it: its functions `attempt_match_X` are `X` of
// this module. Document 01: "matching a node calls its child sequence, which calls nodes again, over ever fewer elements". The siblings of a
// sequence are a loop, whose turn is a function of its own.
ghost use Rattle.std.specs.Prelude.{◌≡◌, ◌≤◌, length, true, false, cond, Some, IfSome};
ghost use Rattle.syntax.specs.Views.{elems_of};
ghost use Rattle.captures.specs.Effects.{moved_to};
ghost use Rattle.captures.specs.Turns.{TurnOf, Steps};
ghost use Rattle.matcher.specs.Matcher.{matcher_of};
ghost use Rattle.matching.specs.Matching.{NodeGives, ByKindGives, SequencesGive, OptGives, PathGives, SegmentsGive, RecordGives, UfcsGives, MethodCallGives, ReceiverGives, ArgumentsGive, FieldGives, ByNameGives, MeasuredGives, NotedGives, Went, Stands};
ghost use Rattle.matching.specs.StartingOver.{is_silent, meets};

use captures::{SelfKind, State, Turn};
use matcher::{Matcher, Siblings};
use record_fields::{Field, ordered_fields};
use syntax::kinds::{
    ARG_LIST, CALL_EXPR, GENERIC_ARG_LIST, Kinds, LITERAL, METHOD_CALL_EXPR,
    PARENTHESIZED_ARG_LIST, PATH, PATH_SEGMENT, RECORD_EXPR_FIELD_LIST, TOKEN_TREE, TRIVIA,
};
use syntax::parts::Part;
use token_trees::comments::record_ignored_comments;
use token_trees::token_trees::attempt_match_token_tree;

// Matches two nodes.
#[tactic(auto, using(crate::proofs::NodeLaws::node_method, crate::proofs::NodeLaws::node_ufcs, crate::proofs::NodeLaws::node_kind, crate::proofs::NodeLaws::node_other))]
#[cycle(node)]
pub fn node(x: &Matcher, p: Part, c: Part, s: State, out: &mut [u8]) -> Option<State>
    requires in_bounds { (3 ≤ length p.words.now) × (3 ≤ length c.words.now) }
    ensures out_len_unchanged { length out.new ≡ length out.old }
    ensures node_gives { NodeGives (matcher_of x.now) p.entry c.entry s out.old result out.new }
{
    if let Some(slot) = x.slot_at(p.number) {
        if x.allows(slot, c.is_node_in(Kinds::one(LITERAL))) {
            return Some(s.bind(slot, c, c, 0, SelfKind::Owned));
        }
        return None;
    }
    let is_call = x.call_at(p.number).is_some();
    if is_call & c.is_node_in(Kinds::one(METHOD_CALL_EXPR)) {
        return ufcs_to_method_call(x, p, c, s, out);
    }
    if is_call & c.is_node_in(Kinds::one(CALL_EXPR)) {
        return ufcs_to_ufcs(x, p, c, s, out);
    }
    if p.kind() == c.kind() {
        return by_kind(x, p, c, s, out);
    }
    None
}

// Matches two nodes of one kind: the last step of `attempt_match_node`.
#[tactic(auto, using(crate::proofs::NodeLaws::kind_record, crate::proofs::NodeLaws::kind_tree, crate::proofs::NodeLaws::kind_path, crate::proofs::NodeLaws::kind_rest))]
#[cycle(node)]
fn by_kind(x: &Matcher, p: Part, c: Part, s: State, out: &mut [u8]) -> Option<State>
    requires in_bounds { (3 ≤ length p.words.now) × (3 ≤ length c.words.now) }
    ensures out_len_unchanged { length out.new ≡ length out.old }
    ensures by_kind_gives { ByKindGives (matcher_of x.now) p.entry c.entry s out.old result out.new }
{
    match c.kind() {
        RECORD_EXPR_FIELD_LIST => record_field_list(x, p, c, s, out),
        TOKEN_TREE => attempt_match_token_tree(x, p, c, s, out),
        PATH => path(x, p, c, s, out),
        _ => sequences(x, p.children(), c.children(), s, out),
    }
}

// One turn of `attempt_match_sequences`: the first of the code's siblings.
#[tactic(auto, using(crate::proofs::TurnLaws::turn_trivia, crate::proofs::TurnLaws::turn_token, crate::proofs::TurnLaws::turn_node, crate::proofs::TurnLaws::turn_token_stops, crate::proofs::TurnLaws::turn_node_stops, crate::proofs::TurnLaws::turn_other_stops, crate::proofs::TurnLaws::went_node))]
#[cycle(node)]
fn turn<'a>(x: &Matcher, p: Part<'a>, c: Part<'a>, s: State, out: &mut [u8]) -> Option<Turn<'a>>
    requires in_bounds { 3 ≤ length c.words.now }
    ensures out_len_unchanged { length out.new ≡ length out.old }
    ensures steps { Steps p.entry c.entry result }
    ensures turn_of { TurnOf (SequencesGive (matcher_of x.now)) (SequencesGive (matcher_of x.now)) p.entry c.entry s out.old result out.new }
    ensures went { IfSome result (λ t. Went p.entry c.entry s out.old t out.new) }
{
    let q = p.skip_trivia();
    if c.is_token_in(TRIVIA) {
        return Some(Turn {
            p: q,
            c: c.rest(),
            state: record_ignored_comments(x, c, s, out),
        });
    }
    if c.is_token() {
        return Some(Turn {
            p: x.attempt_match_token(q, c)?,
            c: c.rest(),
            state: s,
        });
    }
    if !q.is_node() {
        return None;
    }
    Some(Turn {
        p: q.rest(),
        c: c.rest(),
        state: node(x, q, c, s, out)?,
    })
}

// Matches the pattern's siblings with the code's.
#[tactic(auto, using(captures::proofs::TurnLaws::goes_first, captures::proofs::TurnLaws::goes_further, captures::proofs::TurnLaws::goes_end, crate::proofs::LoopLaws::sequence_done, crate::proofs::LoopLaws::sequence_left))]
#[cycle(node)]
fn sequences(x: &Matcher, p: Part, c: Part, s: State, out: &mut [u8]) -> Option<State>
    ensures out_len_unchanged { length out.new ≡ length out.old }
    ensures sequences_give { SequencesGive (matcher_of x.now) p.entry c.entry s out.old result out.new }
{
    let mut t = Turn { p, c, state: s };
    while !t.c.is_empty() {
        t = turn(x, t.p, t.c, t.state, out)?;
    }
    if t.p.skip_trivia().is_empty() {
        return Some(t.state);
    }
    None
}

// Matches two nodes where both are there; fails where one is.
#[tactic(auto, using(crate::proofs::NodeLaws::opt_both, crate::proofs::NodeLaws::opt_pattern, crate::proofs::NodeLaws::opt_code, crate::proofs::NodeLaws::opt_none))]
#[cycle(node)]
fn opt(x: &Matcher, p: Part, c: Part, s: State, out: &mut [u8]) -> Option<State>
    ensures out_len_unchanged { length out.new ≡ length out.old }
    ensures opt_gives { OptGives (matcher_of x.now) p.entry c.entry s out.old result out.new }
{
    match (p.is_empty(), c.is_empty()) {
        (true, true) => Some(s),
        (false, false) => node(x, p, c, s, out),
        _ => None,
    }
}

// Matches two paths: a resolved one by what it refers to.
#[tactic(auto, using(crate::proofs::CallLaws::path_plain, crate::proofs::CallLaws::path_fails, crate::proofs::CallLaws::path_same, crate::proofs::CallLaws::path_other))]
#[cycle(node)]
fn path(x: &Matcher, p: Part, c: Part, s: State, out: &mut [u8]) -> Option<State>
    requires in_bounds { (3 ≤ length p.words.now) × (3 ≤ length c.words.now) }
    ensures out_len_unchanged { length out.new ≡ length out.old }
    ensures path_gives { PathGives (matcher_of x.now) p.entry c.entry s out.old result out.new }
{
    let is_resolved = x.path_at(p.number).is_some();
    if !is_resolved {
        return sequences(x, p.children(), c.children(), s, out);
    }
    let y = p.first_child(PATH_SEGMENT);
    let z = c.first_child(PATH_SEGMENT);
    let t = segments(x, y, z, s, out)?;
    if calls::same_resolution(x, p, c) {
        return Some(t);
    }
    None
}

// Matches the argument lists of two path segments, for `attempt_match_path`.
#[tactic(auto, using(crate::proofs::NodeLaws::segments_none, crate::proofs::NodeLaws::segments_both, crate::proofs::NodeLaws::segments_fail))]
#[cycle(node)]
fn segments(x: &Matcher, p: Part, c: Part, s: State, out: &mut [u8]) -> Option<State>
    ensures out_len_unchanged { length out.new ≡ length out.old }
    ensures segments_give { SegmentsGive (matcher_of x.now) p.entry c.entry s out.old result out.new }
{
    if p.is_empty() | c.is_empty() {
        return Some(s);
    }
    let y = p.first_child(GENERIC_ARG_LIST);
    let z = c.first_child(GENERIC_ARG_LIST);
    let t = opt(x, y, z, s, out)?;
    let y = p.first_child(PARENTHESIZED_ARG_LIST);
    let z = c.first_child(PARENTHESIZED_ARG_LIST);
    opt(x, y, z, t, out)
}

// Matches two record lists by name, or by order from the start where the pattern has a placeholder as a name. Pairs that both parts match are
// left out of the first where no comment is laid; else their comments are laid again.
#[cycle(node)]
fn record_field_list(x: &Matcher, p: Part, c: Part, s: State, out: &mut [u8]) -> Option<State>
    requires in_bounds { (3 ≤ length p.words.now) × (3 ≤ length c.words.now) }
    ensures out_len_unchanged { length out.new ≡ length out.old }
    ensures record_gives { RecordGives (matcher_of x.now) p.entry c.entry s out.old result out.new }
{
    let lists = Siblings {
        p: p.children(),
        c: c.children(),
    };
    let over = ordered_fields::starts_over(x, lists.p);
    let silent = !s.lays | (out.len() < s.noted);
    let t = by_name(x, lists, over & silent, s, out)?;
    if !over {
        if record_fields::are_asked(x, lists) {
            return Some(t);
        }
        return None;
    }
    if silent {
        return measured(x, lists, t, out);
    }
    laid(x, lists, s.noted, t, out)
}

// Matches the pattern's siblings by name, up to the first whose name is a placeholder.
#[tactic(auto, using(crate::proofs::NameLaws::by_name_ends, crate::proofs::NameLaws::by_name_stops, crate::proofs::NameLaws::by_name_fails, crate::proofs::NameLaws::by_name_goes, captures::proofs::TurnLaws::goes_first, captures::proofs::TurnLaws::goes_further, captures::proofs::TurnLaws::goes_end))]
#[cycle(node)]
fn by_name(x: &Matcher, lists: Siblings, leaves: bool, s: State, out: &mut [u8]) -> Option<State>
    ensures out_len_unchanged { length out.new ≡ length out.old }
    ensures by_name_gives { ByNameGives leaves (matcher_of x.now) lists.entry lists.entry.p lists.entry.c s out.old result out.new }
{
    let mut beside = lists.c;
    let mut t = s;
    for q in lists.p {
        if x.has_placeholder_name(q) {
            return Some(t);
        }
        t = field(x, lists, leaves, q, beside, t, out)?;
        beside = ordered_fields::past(q, beside);
    }
    Some(t)
}

// Matches one of the pattern's siblings by its name, where it has one.
#[tactic(auto, using(crate::proofs::NameLaws::field_unnamed, crate::proofs::NameLaws::field_taken, crate::proofs::NameLaws::field_left, crate::proofs::NameLaws::field_last))]
#[cycle(node)]
fn field(
    x: &Matcher,
    lists: Siblings,
    leaves: bool,
    q: Part,
    beside: Part,
    s: State,
    out: &mut [u8],
) -> Option<State>
    requires in_bounds { length q.words.now ≤ length lists.p.words.now }
    ensures out_len_unchanged { length out.new ≡ length out.old }
    ensures field_gives { FieldGives leaves (matcher_of x.now) lists.entry q.entry beside.entry s out.old result out.new }
{
    match record_fields::field_for(x, lists, q) {
        Field::Unnamed => Some(s),
        Field::Taken => None,
        Field::Last(c) => {
            if leaves & ordered_fields::is_same(c, ordered_fields::next(beside)) {
                return Some(s);
            }
            opt(x, q, c, s, out)
        }
    }
}

// Whether the code's field that was asked for, where one was, is the one that stands here.
fn meets(found: Option<Part>, c: Part) -> bool
    ensures { result ≡ meets found.entry (elems_of c.entry) }
{
    match found {
        Some(f) => ordered_fields::is_same(f, c),
        None => false,
    }
}

// That field, as the part that stands here where it is the same one.
fn found_here<'a>(found: Option<Part<'a>>, c: Part<'a>) -> Option<Part<'a>>
    ensures { result ≡ cond (meets found.entry (elems_of c.entry)) (Some c.entry) found.entry }
{
    if meets(found, c) {
        return Some(c);
    }
    found
}

// Matches the siblings by order, where no comment is laid: those of the pairs left out before count once more.
#[cycle(node)]
fn measured(x: &Matcher, lists: Siblings, s: State, out: &mut [u8]) -> Option<State>
    requires out_value { is_silent s out.old ≡ true }
    ensures out_len_unchanged { length out.new ≡ length out.old }
    ensures measured_gives { MeasuredGives true (matcher_of x.now) lists.entry lists.entry.p lists.entry.c s out.old result out.new }
{
    let mut before = true;
    let mut t = Turn {
        p: lists.p,
        c: lists.c,
        state: s,
    };
    while !t.c.is_empty() {
        let q = t.p.skip_trivia();
        before = ordered_fields::goes_on(x, before, q);
        let asked = ordered_fields::asked(x, before, lists, q, t.c);
        if meets(asked, t.c) {
            let u = node(x, q, t.c, t.state, out)?;
            t = Turn {
                p: q.rest(),
                c: t.c.rest(),
                state: u.count_again(t.state, out),
            };
        } else {
            t = turn(x, t.p, t.c, t.state, out)?;
        }
    }
    if t.p.skip_trivia().is_empty() {
        return Some(t.state);
    }
    None
}

// Matches the siblings by order, where comments are laid: those of the siblings by name stand in the buffer from a place on.
#[cycle(node)]
fn laid(x: &Matcher, lists: Siblings, start: usize, s: State, out: &mut [u8]) -> Option<State>
    requires lays_value { s.lays ≡ true }
    requires stands { Stands true (matcher_of x.now) lists lists.p start s out.old }
    ensures out_len_unchanged { length out.new ≡ length out.old }
    ensures sequences_give { SequencesGive (matcher_of x.now) lists.entry.p lists.entry.c s out.old result out.new }
{
    let mut before = true;
    let mut end = start;
    let mut t = Turn {
        p: lists.p,
        c: lists.c,
        state: s,
    };
    while !t.c.is_empty() {
        let q = t.p.skip_trivia();
        before = ordered_fields::goes_on(x, before, q);
        let has_room = t.state.noted <= out.len();
        let asked = ordered_fields::asked(x, before & has_room, lists, q, t.c);
        let from = end;
        let m = noted(x, q, found_here(asked, t.c), from, t.state, out)?;
        end = m.noted;
        if meets(asked, t.c) & captures::fits(from, end, t.state.noted, out.len()) {
            captures::lay_again(out, from, end - from, t.state.noted);
            t = Turn {
                p: q.rest(),
                c: t.c.rest(),
                state: m.moved(t.state.noted + (end - from), true),
            };
        } else {
            t = turn(x, t.p, t.c, t.state, out)?;
        }
    }
    if t.p.skip_trivia().is_empty() {
        return Some(t.state);
    }
    None
}

// Measures the comments of one of the pattern's siblings matched by its name, where it has one, from a place on.
#[tactic(auto, using(captures::proofs::AttemptLaws::gives_done))]
#[cycle(node)]
fn noted(
    x: &Matcher,
    q: Part,
    found: Option<Part>,
    from: usize,
    s: State,
    out: &mut [u8],
) -> Option<State>
    ensures out_len_unchanged { length out.new ≡ length out.old }
    ensures noted_gives { NotedGives (matcher_of x.now) q.entry found.entry (moved_to from false s) out.old result out.new }
{
    let t = s.moved(from, false);
    match found {
        Some(c) => opt(x, q, c, t, out),
        None => Some(t),
    }
}

// Matches a call with a call whose first argument has the qualifier type.
#[tactic(auto, using(crate::proofs::CallLaws::ufcs_fits, crate::proofs::CallLaws::ufcs_other))]
#[cycle(node)]
fn ufcs_to_ufcs(x: &Matcher, p: Part, c: Part, s: State, out: &mut [u8]) -> Option<State>
    requires in_bounds { (3 ≤ length p.words.now) × (3 ≤ length c.words.now) }
    ensures out_len_unchanged { length out.new ≡ length out.old }
    ensures ufcs_gives { UfcsGives (matcher_of x.now) p.entry c.entry s out.old result out.new }
{
    if calls::first_fits(x, p, c) {
        return sequences(x, p.children(), c.children(), s, out);
    }
    None
}

// Matches a call with a method call of the same function.
#[tactic(auto, using(crate::proofs::CallLaws::method_lists, crate::proofs::CallLaws::method_other, crate::proofs::CallLaws::method_plain, crate::proofs::CallLaws::method_fails, crate::proofs::CallLaws::method_receiver))]
#[cycle(node)]
fn ufcs_to_method_call(x: &Matcher, p: Part, c: Part, s: State, out: &mut [u8]) -> Option<State>
    requires in_bounds { (3 ≤ length p.words.now) × (3 ≤ length c.words.now) }
    ensures out_len_unchanged { length out.new ≡ length out.old }
    ensures method_call_gives { MethodCallGives (matcher_of x.now) p.entry c.entry s out.old result out.new }
{
    let y = p.first_child(ARG_LIST);
    let z = c.first_child(ARG_LIST);
    if y.is_empty() | z.is_empty() {
        return None;
    }
    if !calls::same_function(x, p, c) {
        return None;
    }
    let ps = y.children();
    let cs = z.children();
    if !calls::takes_receiver(x, p, c) {
        return arguments(x, ps, cs, s, out);
    }
    let t = receiver(x, p, c, s, out)?;
    arguments(x, ps.find_expression().rest(), cs, t, out)
}

// Matches the receiver of a method call with the first argument of a call, for `attempt_match_ufcs_to_method_call`.
#[tactic(auto, using(crate::proofs::CallLaws::receiver_none, crate::proofs::CallLaws::receiver_fails, crate::proofs::CallLaws::receiver_matches))]
#[cycle(node)]
fn receiver(x: &Matcher, p: Part, c: Part, s: State, out: &mut [u8]) -> Option<State>
    requires in_bounds { (3 ≤ length p.words.now) × (3 ≤ length c.words.now) }
    ensures out_len_unchanged { length out.new ≡ length out.old }
    ensures receiver_gives { ReceiverGives (matcher_of x.now) p.entry c.entry s out.old result out.new }
{
    let stars = calls::receiver_derefs(x, p, c)?;
    let q = calls::arguments_of(p).find_expression();
    let z = calls::receiver_of(c);
    let t = opt(x, q, z, s, out)?;
    Some(calls::prefix(x, stars, q, z, c, t))
}

// Matches arguments in turn: the loop of `attempt_match_ufcs_to_method_call`.
#[tactic(auto, using(captures::proofs::TurnLaws::goes_first, captures::proofs::TurnLaws::goes_further, captures::proofs::TurnLaws::goes_end, crate::proofs::LoopLaws::arguments_done, crate::proofs::LoopLaws::arguments_fail))]
#[cycle(node)]
fn arguments(x: &Matcher, p: Part, c: Part, s: State, out: &mut [u8]) -> Option<State>
    ensures out_len_unchanged { length out.new ≡ length out.old }
    ensures arguments_give { ArgumentsGive (matcher_of x.now) p.entry c.entry s out.old result out.new }
{
    let mut t = Turn { p, c, state: s };
    loop {
        let y = t.p.find_expression();
        let z = t.c.find_expression();
        if z.is_empty() {
            return if y.is_empty() { Some(t.state) } else { None };
        }
        t = Turn {
            state: opt(x, y, z, t.state, out)?,
            p: y.rest(),
            c: z.rest(),
        };
    }
}
