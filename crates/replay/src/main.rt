// Runs a stored sample of judged operations through the library, and says how many of its answers are the judged ones.
// The sample, crates/replay/stdin, is generated and has no texts but the generator's own. This made it:
//   sh oracle/compare/run sample 1 440 > crates/replay/stdin
#![tactic(auto)]

use std::io;
use std::io::Read;

mod records; // records.rt: a record and its parts
mod answer_bytes; // answer_bytes.rt: the bytes of an answer
mod buffers; // buffers.rt: the buffer of an operation
mod list_checks; // list_checks.rt: the operations on token lists
mod fact_tree_checks; // fact_tree_checks.rt: trees with their facts
mod rule_checks; // rule_checks.rt: the operations on rules
mod file_checks; // file_checks.rt: the operations on a file with rules
mod operations; // operations.rt: the operations by their numbers

use operations::Operation;
use records::Record;

// How many answers are the judged ones, and how many are not.
#[derive(Clone, Copy)]
struct Counts {
    equal: u64,
    different: u64,
}

impl Counts {
    fn add(&mut self, right: bool) {
        if right {
            self.equal = self.equal.wrapping_add(1);
        } else {
            self.different = self.different.wrapping_add(1);
        }
    }
}

const NONE: Counts = Counts {
    equal: 0,
    different: 0,
};

// The same of each operation, and of records whose operation is not known.
#[derive(Drop)]
struct Tally {
    known: [Counts; 10],
    unknown: Counts,
}

impl Tally {
    fn add(&mut self, record: Record) {
        match Operation::numbered(record.operation) {
            Some(operation) => {
                let right = operation.is_right(record.parts);
                self.known[operation as usize].add(right);
            }
            None => self.unknown.add(false),
        }
    }
}

// Reads a record and counts its answer; false at the end of the sample.
fn replay<R: Read>(sample: &mut R, tally: &mut Tally) -> io::Result<bool> {
    let mut body = [0; 65536];
    match records::read(sample, &mut body)? {
        Some(size) => {
            tally.add(Record::new(&body[..size]));
            Ok(true)
        }
        None => Ok(false),
    }
}

// A proved loop has to end, and nothing says that the sample does: no run uses these turns up.
fn replay_all<R: Read>(sample: &mut R, tally: &mut Tally) -> io::Result<()> {
    for _ in 0..u64::MAX {
        if !replay(sample, tally)? {
            break;
        }
    }
    Ok(())
}

fn print(rt: &impl Print, name: &[u8], counts: Counts) -> io::Result<()> {
    let Counts { equal, different } = counts;
    rt.write_all(name)?;
    println!(rt; ": {equal} equal, {different} different")
}

fn main(rt: HostRuntime) -> io::Result<()> {
    let mut tally = Tally {
        known: [NONE; 10],
        unknown: NONE,
    };
    replay_all(&mut rt.stdin(), &mut tally)?;
    for operation in Operation::ALL {
        print(&rt, operation.name(), tally.known[operation as usize])?;
    }
    if 0 < tally.unknown.different {
        print(&rt, b"unknown operations", tally.unknown)?;
    }
    Ok(())
}
