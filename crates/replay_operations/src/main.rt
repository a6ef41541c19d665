// Replays the stored answers of every operation, record after record, and prints how many entries of
// each were compared and how many differ. What comes of a record is replay_calls's; one that ends
// early, or makes no sense, ends the run.
#![tactic(auto)]

use replay::{Answers, Cut};
use replay_head::{HEAD, OPERATIONS};
use std::io::Stdin;
use std::{fmt, io};
use tally::Tally;

// The calls whose record was read to the end, and what was compared.
#[derive(Clone, Copy, Default)]
struct Count {
    calls: u64,
    tally: Tally,
}

impl Count {
    // The count of one record, which was read to its end or cut.
    fn of(answers: Answers, read: Result<(), Cut>) -> Count {
        Count {
            calls: u64::from(read.is_ok()),
            tally: answers.counted(read),
        }
    }

    fn with(self, other: Count) -> Count {
        Count {
            calls: self.calls.saturating_add(other.calls),
            tally: self.tally.with(other.tally),
        }
    }
}

// As `12 calls, 12 entries compared, 0 differ`.
impl fmt::Display for Count {
    fn fmt<W: fmt::Write>(&self, f: &mut fmt::Formatter<W>) -> fmt::Result {
        let Tally { compared, differ } = self.tally;
        write!(
            f,
            "{} calls, {compared} entries compared, {differ} differ",
            self.calls
        )
    }
}

// The count of each operation, in the order of their numbers, which begin at 1; and of all together,
// where a number that no operation has counts too.
#[derive(Drop)]
struct Counts {
    all: Count,
    each: [Count; OPERATIONS],
}

impl Counts {
    fn add(&mut self, operation: Option<u8>, count: Count) {
        self.all = self.all.with(count);
        let Some(place) = operation.and_then(|number| usize::from(number).checked_sub(1)) else {
            return;
        };
        if let Some(it) = self.each.get_mut(place) {
            *it = it.with(count);
        }
    }
}

// Reads the next record: whether there was one. Where the input ends within a head, it is not known
// which operation the record was of.
fn next_record(input: Stdin, counts: &mut Counts) -> Result<bool, Cut> {
    let mut answers = Answers::new(input);
    let mut head = [0u8; HEAD];
    match answers.read_head(&mut head) {
        Ok(true) => {
            let read = replay_calls::check_record(&mut answers, &head);
            counts.add(Some(head[0]), Count::of(answers, read));
            read?;
            Ok(true)
        }
        Ok(false) => Ok(false),
        Err(cut) => {
            counts.add(None, Count::of(answers, Err(cut)));
            Err(cut)
        }
    }
}

// Nothing says that the input ends, so the loop has more turns than any run uses up.
fn run(input: Stdin, counts: &mut Counts) -> Result<(), Cut> {
    for _ in 0..u64::MAX {
        if !next_record(input, counts)? {
            return Ok(());
        }
    }
    Ok(())
}

fn main(rt: HostRuntime) -> io::Result<()> {
    let mut counts = Counts {
        all: Count::default(),
        each: [Count::default(); OPERATIONS],
    };
    // Where the input is cut, the difference is counted.
    let _ = run(rt.stdin(), &mut counts);
    println!(rt; "records {}", counts.all.calls)?;
    for (i, count) in counts.each.iter().enumerate() {
        println!(rt; "{}: {count}", i + 1)?;
    }
    println!(rt; "{} differences", counts.all.tally.differ)
}
