// Parentheses: which placeholders of a first rendering require them, and putting them in where the rendering stands.
#![tactic(auto)]

ghost use Rattle.std.specs.Prelude.{◌≡◌, ◌&&◌, not, ◌+◌, ◌*◌, ◌≤◌, eqb, length, take, drop};
ghost use Rattle.words.specs.Buffer.{laid};
ghost use Rattle.parses.specs.Ranges.{ranges_in, is_among};
ghost use Rattle.parentheses.specs.Parentheses.{total, requires, enclosed, extra, wrapped, added};
ghost use Rattle.parentheses.specs.Parts.{parts_of, marks_of};

// What a fragment of the template rendered: how many bytes, whether it is a placeholder's, and whether it is put in parentheses.
#[derive(Clone, Copy)]
pub struct Part {
    pub length: u32,
    pub is_placeholder: bool,
    pub is_enclosed: bool,
}

// How many bytes parts have.
#[tactic(auto, using(crate::proofs::SumLaws::total_sum))]
fn total_length(parts: &[Part]) -> usize
    requires { total (parts_of parts.now) ≤ 1048576 }
    ensures { result ≡ total (parts_of parts.now) }
{
    parts.iter().map(|part| part.length as usize).sum()
}

// Whether a part at a byte requires parentheses, where an empty placeholder's part follows behind it without a byte between or not.
fn is_required(ranges: &[[u32; 2]], part: Part, start: usize, is_followed: bool) -> bool
    requires { start + part.length ≤ 1048576 }
    ensures { result ≡ (part.is_placeholder && not (is_among (ranges_in ranges.now) start (start + part.length)) && not (eqb part.length 0 && is_followed)) }
{
    let n = part.length as usize;
    part.is_placeholder
        && !(n == 0 && is_followed)
        && !parses::is_node_range(ranges, start, start + n)
}

// How many bytes the parentheses of a part take.
fn extra(is_enclosed: bool) -> usize
    ensures { result ≡ extra is_enclosed }
{
    if is_enclosed { 2 } else { 0 }
}

// Marks the parts that require parentheses, from the last to the first, and answers how many bytes these take.
pub fn mark_parts(ranges: &[[u32; 2]], parts: &mut [Part]) -> usize
    requires { (total (parts_of parts.old) ≤ 1048576) × (length parts.old ≤ 16384) }
    ensures same_parts { parts_of parts.new ≡ parts_of parts.old }
    ensures marks { marks_of parts.new ≡ requires (ranges_in ranges.now) 0 (parts_of parts.old) }
    ensures value { (result ≡ added (requires (ranges_in ranges.now) 0 (parts_of parts.old))) × (result ≤ 2 * length parts.old) }
{
    let mut start = total_length(parts);
    let mut more = 0;
    let mut is_followed = false;
    for i in (0..parts.len()).rev() {
        let part = parts[i];
        start -= part.length as usize;
        let is_enclosed = is_required(ranges, part, start, is_followed);
        parts[i].is_enclosed = is_enclosed;
        more += extra(is_enclosed);
        is_followed = (part.length == 0) & (part.is_placeholder | is_followed);
    }
    more
}

// The part of n bytes at a place is moved, and put in parentheses if it is marked, so that it ends at another place; answers where it begins.
fn put_part(out: &mut [u8], from: usize, n: usize, end: usize, is_enclosed: bool) -> usize
    requires { (from + n + extra is_enclosed ≤ end) × (end ≤ length out.old) }
    ensures { (result + n + extra is_enclosed ≡ end) × (out.new ≡ laid out.old result (enclosed is_enclosed (take n (drop from out.old)))) }
{
    if !is_enclosed {
        out.copy_within(from..from + n, end - n);
        return end - n;
    }
    let start = end - n - 2;
    out.copy_within(from..from + n, start + 1);
    out[end - 1] = b')';
    out[start] = b'(';
    start
}

// The first `size` bytes get their parentheses, `more` bytes, from the last part to the first: each byte is moved once. What stands behind the
// room for these stays.
pub fn put_parentheses(out: &mut [u8], size: usize, more: usize, parts: &[Part])
    requires { (size ≡ total (parts_of parts.now)) × (more ≡ added (marks_of parts.now)) × (size + more ≤ length out.old) }
    ensures { out.new ≡ laid out.old 0 (wrapped (parts_of parts.now) (marks_of parts.now) (take size out.old)) }
{
    let mut from = size;
    let mut to = size + more;
    for part in parts.iter().rev() {
        let n = part.length as usize;
        from -= n;
        to = put_part(out, from, n, to, part.is_enclosed);
    }
}
