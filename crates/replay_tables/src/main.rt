// Replays the stored tables of the standard: compares every entry of the carrier tables, every first
// state of the sign register and every entry of the randomizing tables with what the crates have. Input
// that ends early counts as a difference and ends the run; so does a row of more than 20 entries.
#![tactic(auto)]

ghost use Rattle.std.specs.Prelude.{ℕ, ◌<◌, ◌≤◌};

use ofdm::Segment;
use params::{Mode, SegmentKind};
use replay::{Answers, Cut};
use std::io;
use std::io::Stdin;
use tally::Tally;

// Compares numbers with the next ones that are stored.
fn compare<F: Fn(usize) -> u16>(answers: &mut Answers, n: usize, number: F) -> Result<(), Cut>
    requires few { n ≤ 384 }
    requires callable { (i : ℕ) → i < n → F.pre number i }
{
    let mut room = [0u8; 768];
    answers.read_part(&mut room, 2 * n)?;
    for i in 0..n {
        answers
            .tally
            .entry(number(i) == replay::number_at(&room, 2 * i));
    }
    Ok(())
}

// The count of a row is stored in front of its places. A place that the row lacks is compared as 0.
fn check_row(answers: &mut Answers, row: &[u16]) -> Result<(), Cut> {
    let n = usize::from(answers.read_byte()?);
    if 20 < n {
        return Err(Cut);
    }
    compare(answers, n, |i| row.get(i).copied().unwrap_or(0))?;
    answers.tally.expect(n == row.len());
    Ok(())
}

fn check_table<'a, F: Fn(Mode, Segment) -> &'a [u16]>(
    answers: &mut Answers,
    row: F,
) -> Result<(), Cut>
    requires { F.IsAlwaysCallable row }
{
    for mode in Mode::ALL {
        for seg in 0..13 {
            check_row(answers, row(mode, Segment { number: seg }))?;
        }
    }
    Ok(())
}

// The carrier tables, in the order of the input.
fn check_tables(answers: &mut Answers) -> Result<(), Cut> {
    let differential = SegmentKind::Differential;
    let coherent = SegmentKind::Coherent;
    check_table(
        answers,
        |mode, seg| tables::ac1_positions(mode, differential, seg),
    )?;
    check_table(
        answers,
        |mode, seg| tables::ac2_positions(mode, differential, seg),
    )?;
    check_table(
        answers,
        |mode, seg| tables::tmcc_positions(mode, differential, seg),
    )?;
    check_table(
        answers,
        |mode, seg| tables::ac1_positions(mode, coherent, seg),
    )?;
    check_table(
        answers,
        |mode, seg| tables::tmcc_positions(mode, coherent, seg),
    )
}

fn check_states(answers: &mut Answers) -> Result<(), Cut> {
    for mode in Mode::ALL {
        compare(
            answers,
            13,
            |seg: usize| -> u16
                requires { seg < 13 }
            { tables::prbs_segment_init(mode, Segment { number: seg }) },
        )?;
    }
    Ok(())
}

// Behind the last table the input must end.
fn check_randomizing(answers: &mut Answers) -> Result<(), Cut> {
    for mode in Mode::ALL {
        compare(answers, mode.data_carriers_per_segment(), |i| {
            tables::carrier_randomize(mode, i)
        })?;
    }
    let at_end = answers.read_byte().is_err();
    answers.tally.expect(at_end);
    Ok(())
}

// What was counted of each kind of table.
struct Counts {
    entries: Tally,
    states: Tally,
    randomizing: Tally,
}

// Checks tables of one kind.
fn check_kind<F: FnOnce(&mut Answers) -> Result<(), Cut>>(
    input: Stdin,
    tally: &mut Tally,
    check: F,
) -> Result<(), Cut>
    requires { F.IsAlwaysCallable check }
{
    let mut answers = Answers::new(input);
    let read = check(&mut answers);
    *tally = answers.counted(read);
    read
}

fn check_all(input: Stdin, counts: &mut Counts) -> Result<(), Cut> {
    check_kind(input, &mut counts.entries, check_tables)?;
    check_kind(input, &mut counts.states, check_states)?;
    check_kind(input, &mut counts.randomizing, check_randomizing)
}

fn main(rt: HostRuntime) -> io::Result<()> {
    let mut counts = Counts {
        entries: Tally::new(),
        states: Tally::new(),
        randomizing: Tally::new(),
    };
    // Where the input is cut, the difference is counted.
    let _ = check_all(rt.stdin(), &mut counts);
    let Counts {
        entries,
        states,
        randomizing,
    } = counts;
    println!(rt; "table entries {entries}")?;
    println!(rt; "first states {states}")?;
    println!(rt; "randomizing entries {randomizing}")?;
    let all = entries.with(states).with(randomizing);
    println!(rt; "{} differences", all.differ)
}
