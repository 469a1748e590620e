// The stored sample. A number is four bytes, the lowest first. A record is
//   the number of bytes that follow,
//   the number of its operation, in document 01's order: 1 reading tokens, 2 checking a pair, 3 writing raw code, 4 checking the
//   file's tree with its facts, 5 checking a rule's, 6 building rules, 7 resolving, 8 matching one node, 9 a job, 10 a walk,
//   and its parts, for each the number of its bytes and then these.
// The parts are what the operation is handed, in the order of its parameters, each word as a number and of a buffer its length, then
// the buffer after the call, if there is one, and the expected answer: the fields of the exported struct in their order. Both are
// stored up to the last byte that is not 0.
ghost use Rattle.std.specs.Prelude.{◌≡◌, ◌<◌, ◌≤◌, length, take, true, IfOk, IfSome};
ghost use Rattle.std.specs.Io.KnownBytes.{Consumes};
ghost use Rattle.replay.specs.Records.{number_of, TakesRecord};

use arrayvec::ArrayVec;
use std::io;
use std::io::{ErrorKind, Read};
use words::slices;

// The number that bytes begin with, 0 where there are no four.
#[tactic(auto, unfolding(crate::specs::Records::number_of))]
pub fn number(s: &[u8]) -> u32
    ensures value { 4 ≤ length s.now → result ≡ number_of s.now }
    ensures cut_off { length s.now < 4 → result ≡ 0 }
{
    s.first_chunk::<4>()
        .map_or(0, |bytes| u32::from_le_bytes(*bytes))
}

// The parts of a record.
#[derive(Clone, Copy)]
pub struct Parts<'a> {
    bytes: &'a [u8],
}

impl<'a> Parts<'a> {
    // The first, empty where it is cut off, and those behind it.
    fn split(self) -> (&'a [u8], Parts<'a>) {
        let end = 4 + number(self.bytes) as usize;
        let rest = Parts {
            bytes: slices::tail(self.bytes, end),
        };
        (slices::part_of(self.bytes, 4, end), rest)
    }

    // A part by its place, the first at 0.
    pub fn at(self, place: usize) -> &'a [u8] {
        let mut left = self;
        for _ in 0..place {
            left = left.split().1;
        }
        left.split().0
    }

    // The number that the part at a place is.
    pub fn number(self, place: usize) -> u32 {
        number(self.at(place))
    }

    // The words of the part at a place, as many as there is room for.
    pub fn words<const N: usize>(self, place: usize) -> ArrayVec<u32, N> {
        let mut words = ArrayVec::new();
        for bytes in self.at(place).chunks_exact(4) {
            if words.try_push(number(bytes)).is_err() {
                break;
            }
        }
        words
    }
}

// A record: the number of its operation, and its parts.
#[derive(Clone, Copy)]
pub struct Record<'a> {
    pub operation: u32,
    pub parts: Parts<'a>,
}

impl<'a> Record<'a> {
    // The record that bytes are.
    pub fn new(bytes: &'a [u8]) -> Record<'a> {
        Record {
            operation: number(bytes),
            parts: Parts {
                bytes: slices::tail(bytes, 4),
            },
        }
    }
}

// Fills a buffer from the sample; false where the sample ends before.
fn is_filled<R: Read>(sample: &mut R, out: &mut [u8]) -> io::Result<bool>
    ensures { IfOk result (λ filled. filled ≡ true → Consumes (R.remaining sample.old) (R.remaining sample.new) out.new) }
{
    match sample.read_exact(out) {
        Ok(()) => Ok(true),
        Err(e) if e.kind() == ErrorKind::UnexpectedEof => Ok(false),
        Err(e) => Err(e),
    }
}

// Reads the next record, without its length: how many bytes it has. None is for the end of the sample, and for a record that is
// empty, is cut off or has no room.
pub fn read<R: Read>(sample: &mut R, out: &mut [u8]) -> io::Result<Option<usize>>
    ensures in_room { IfOk result (λ r. IfSome r (λ n. n ≤ length out.new)) }
    ensures taken { IfOk result (λ r. IfSome r (λ n. TakesRecord (R.remaining sample.old) (R.remaining sample.new) (take n out.new))) }
{
    let mut head = [0; 4];
    if !is_filled(sample, &mut head)? {
        return Ok(None);
    }
    let size = number(&head) as usize;
    if (size == 0) | (out.len() < size) {
        return Ok(None);
    }
    if is_filled(sample, &mut out[..size])? {
        return Ok(Some(size));
    }
    Ok(None)
}
