// The buffers of operations.
use crate::answer_bytes;
use crate::answer_bytes::Answer;
use crate::records::Parts;
use arrayvec::ArrayVec;

// A buffer whose length the part at a place is; none where that is more than N. No byte of it is 0 before.
pub fn buffer<const N: usize>(parts: Parts, place: usize) -> Option<ArrayVec<u8, N>> {
    let mut out = ArrayVec::new();
    for _ in 0..parts.number(place) {
        out.try_push(165).ok()?;
    }
    Some(out)
}

// Whether a buffer holds the expected bytes, at most 4,096, and then 0. Those behind the buffer's end are not looked at.
fn is_left(out: &[u8], expected: &[u8]) -> bool {
    let (within, _) = expected.split_at(expected.len().min(out.len()));
    expected.len() <= 4096 && answer_bytes::is_expected(out, within)
}

// Whether an operation answered and left the buffer as the parts from a place on say.
pub fn is_right<A: Answer>(parts: Parts, place: usize, out: &[u8], answer: &A) -> bool {
    is_left(out, parts.at(place))
        & answer_bytes::is_answer(answer, parts.at(place.saturating_add(1)))
}
