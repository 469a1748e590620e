// The operations on a file with rules. Each list of words has room for 512, a buffer for 256 bytes.
use crate::buffers;
use crate::records::Parts;
use ssr::{job_exports, match_exports};

// Whether matching one node with a buffer answers and leaves it as expected.
pub fn match_node(parts: Parts) -> bool {
    let directory = parts.words::<512>(0);
    let words = parts.words::<512>(1);
    let tree = parts.words::<512>(4);
    let facts = parts.words::<512>(6);
    let Some(mut out) = buffers::buffer::<256>(parts, 12) else {
        return false;
    };
    let answer = match_exports::ssr_match_node(
        directory.as_slice(),
        words.as_slice(),
        parts.at(2),
        parts.at(3),
        tree.as_slice(),
        parts.at(5),
        facts.as_slice(),
        parts.number(7) as usize,
        parts.number(8) as usize,
        parts.number(9),
        parts.number(10) as usize,
        parts.number(11) as usize,
        out.as_mut_slice(),
    );
    buffers::is_right(parts, 13, out.as_slice(), &answer)
}

// Whether a job with a buffer answers and leaves it as expected.
pub fn job(parts: Parts) -> bool {
    let directory = parts.words::<512>(0);
    let words = parts.words::<512>(1);
    let tree = parts.words::<512>(4);
    let facts = parts.words::<512>(6);
    let parses = parts.words::<512>(7);
    let candidates = parts.words::<512>(9);
    let Some(mut out) = buffers::buffer::<256>(parts, 13) else {
        return false;
    };
    let answer = job_exports::ssr_job(
        directory.as_slice(),
        words.as_slice(),
        parts.at(2),
        parts.at(3),
        tree.as_slice(),
        parts.at(5),
        facts.as_slice(),
        parses.as_slice(),
        parts.at(8),
        candidates.as_slice(),
        parts.number(10),
        parts.number(11) as usize,
        parts.number(12) as usize,
        out.as_mut_slice(),
    );
    buffers::is_right(parts, 14, out.as_slice(), &answer)
}

// Whether a walk with a buffer answers and leaves it as expected.
pub fn walk(parts: Parts) -> bool {
    let directory = parts.words::<512>(0);
    let words = parts.words::<512>(1);
    let tree = parts.words::<512>(4);
    let facts = parts.words::<512>(6);
    let parses = parts.words::<512>(7);
    let Some(mut out) = buffers::buffer::<256>(parts, 12) else {
        return false;
    };
    let answer = job_exports::ssr_walk(
        directory.as_slice(),
        words.as_slice(),
        parts.at(2),
        parts.at(3),
        tree.as_slice(),
        parts.at(5),
        facts.as_slice(),
        parses.as_slice(),
        parts.at(8),
        parts.number(9),
        parts.number(10) as usize,
        parts.number(11) as usize,
        out.as_mut_slice(),
    );
    buffers::is_right(parts, 13, out.as_slice(), &answer)
}
