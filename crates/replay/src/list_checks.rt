// The operations on token lists. A list has room for 512 words, a buffer for 4,096 bytes.
use crate::records::Parts;
use crate::{answer_bytes, buffers};

// Whether reading tokens answers as expected.
pub fn read_tokens(parts: Parts) -> bool {
    let words = parts.words::<512>(0);
    let answer = ssr::ssr_read_tokens(words.as_slice(), parts.at(1));
    answer_bytes::is_answer(&answer, parts.at(2))
}

// Whether checking a pair answers as expected.
pub fn check_pair(parts: Parts) -> bool {
    let words = parts.words::<512>(0);
    let others = parts.words::<512>(3);
    let answer = ssr::ssr_check_pair(
        words.as_slice(),
        parts.at(1),
        parts.number(2),
        others.as_slice(),
        parts.at(4),
    );
    answer_bytes::is_answer(&answer, parts.at(5))
}

// Whether writing raw code into a buffer answers and leaves it as expected.
pub fn raw_code(parts: Parts) -> bool {
    let words = parts.words::<512>(0);
    let Some(mut out) = buffers::buffer::<4096>(parts, 2) else {
        return false;
    };
    let answer = ssr::ssr_raw_code(words.as_slice(), parts.at(1), out.as_mut_slice());
    buffers::is_right(parts, 3, out.as_slice(), &answer)
}
