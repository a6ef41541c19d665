// The answer to one line of the segment list of document 01: for a question a line for each of the
// thirteen segments, by place, and one for the edge; for any other line its refusal.
//
// As in `text`, each function takes the buffer and the index to start at, and gives the index behind what it
// stored; and numbers below 10000 have no type of their own.
#![tactic(auto)]

ghost use Rattle.std.specs.Prelude.{◌≡◌, ◌<◌, ◌≤◌, ◌+◌, ◌/◌, length};
ghost use Rattle.lists.specs.Lists.{joined, range};
ghost use Rattle.params.specs.Params.{kind_code};
ghost use Rattle.role_counts.specs.Counts.{kind_counts};
ghost use Rattle.text.specs.Put.{Put};
ghost use Rattle.segment_answer.specs.Answer.{edge_line, refused_line, line_answer};
ghost use Rattle.segment_answer.specs.Pieces.{three, line_head, counts_line, line_of};

use ofdm::{BandCarrier, BandPlace, Segment, SegmentPlace};
use params::{Mode, SegmentKind};
use question::Question;
use role_counts::kind_counts;
use text::{put_byte, put_number, put_text};

// Three numbers: commas between them, and a byte behind the last.
fn put_three(out: &mut [u8], at: usize, a: usize, b: usize, c: usize, behind: u8) -> usize
    requires { (at + 12 + b / 10 ≤ length out.old) × (a < 10000) × (b < 10000) × (c < 10000) }
    ensures put { Put out.old at (three a b c behind) result out.new }
    ensures upper_bound { result ≤ at + 9 + b / 10 + c / 10 }
{
    let behind_a = put_number(out, at, a, b',');
    let behind_b = put_number(out, behind_a, b, b',');
    put_number(out, behind_b, c, behind)
}

// The six counts of a segment, and the line's end.
fn put_counts(out: &mut [u8], at: usize, mode: Mode, kind: SegmentKind) -> usize
    requires { at + 24 ≤ length out.old }
    ensures put { Put out.old at (counts_line (kind_counts mode kind)) result out.new }
    ensures upper_bound { result ≤ at + 24 }
{
    let k = kind_counts(mode, kind);
    let behind_cp = put_three(out, at, k.data, k.sp, k.cp, b',');
    put_three(out, behind_cp, k.tmcc, k.ac1, k.ac2, b'\n')
}

// A segment's line up to its counts: place, segment, kind, first carrier.
fn put_head(
    out: &mut [u8],
    at: usize,
    place: BandPlace,
    seg: Segment,
    letter: u8,
    carrier: BandCarrier,
) -> usize
    requires { (at + 13 ≤ length out.old) × (place.0 < 13) × (carrier.0 < 10000) }
    ensures put { Put out.old at (line_head place.0 seg.number letter carrier.0) result out.new }
    ensures upper_bound { result ≤ at + 13 }
{
    let behind_place = put_number(out, at, place.0, b',');
    let behind_number = put_number(out, behind_place, seg.number, b',');
    let behind_letter = put_byte(out, behind_number, letter);
    let behind_comma = put_byte(out, behind_letter, b',');
    put_number(out, behind_comma, carrier.0, b',')
}

// The letter of a kind: the way back from `question::kind_of`.
fn letter_of(kind: SegmentKind) -> u8
    ensures { result ≡ 67 + kind_code kind }
{
    match kind {
        SegmentKind::Coherent => b'C',
        SegmentKind::Differential => b'D',
    }
}

// The line of the segment at a place.
fn put_segment(out: &mut [u8], at: usize, question: Question, place: BandPlace) -> usize
    requires { (at + 37 ≤ length out.old) × (place.0 < 13) }
    ensures put { Put out.old at (line_of question place.0) result out.new }
    ensures upper_bound { result ≤ at + 37 }
{
    let seg = ofdm::segment_at_position(place);
    let kind = question.kinds[seg.number];
    let letter = letter_of(kind);
    let carrier = ofdm::band_carrier(question.mode, place, SegmentPlace(0));
    let behind_head = put_head(out, at, place, seg, letter, carrier);
    put_counts(out, behind_head, question.mode, kind)
}

// The thirteen lines of the segments, by place.
fn put_segments(out: &mut [u8], at: usize, question: Question) -> usize
    requires { at + 481 ≤ length out.old }
    ensures put { Put out.old at (joined (line_of question) (range 13)) result out.new }
    ensures upper_bound { result ≤ at + 481 }
{
    let mut to = at;
    for place in 0..13 {
        to = put_segment(out, to, question, BandPlace(place));
    }
    to
}

// The line of the edge.
fn put_edge(out: &mut [u8], at: usize, mode: Mode) -> usize
    requires { at + 24 ≤ length out.old }
    ensures put { Put out.old at (edge_line mode) result out.new }
    ensures upper_bound { result ≤ at + 24 }
{
    let behind_edge = put_text(out, at, b"13,E,E,");
    let behind_carrier = put_number(out, behind_edge, mode.total_carriers() - 1, b',');
    put_text(out, behind_carrier, b"0,0,0,0,0,0\n")
}

// The line of a refusal, by its number: the form of the line has room for any below 10000. It takes any such
// number, not a `Refusal`: a narrower type would ask more of callers, and no contract may ask more than it did.
#[tactic(auto, using(text::specs::Laws::then), unfolding(crate::specs::Answer::refused_line))]
pub fn put_refused(out: &mut [u8], at: usize, code: usize) -> usize
    requires { (at + 512 ≤ length out.old) × (code < 10000) }
    ensures put { Put out.old at (refused_line code) result out.new }
    ensures upper_bound { result ≤ at + 512 }
{
    let behind_word = put_text(out, at, b"refused,");
    put_number(out, behind_word, code, b'\n')
}

// The answer to a line that is given whole.
pub fn put_answer(out: &mut [u8], at: usize, line: &[u8]) -> usize
    requires { at + 512 ≤ length out.old }
    ensures put { Put out.old at (line_answer line.now) result out.new }
    ensures upper_bound { result ≤ at + 512 }
{
    match Question::parse(line) {
        Ok(question) => {
            let behind_segments = put_segments(out, at, question);
            put_edge(out, behind_segments, question.mode)
        }
        Err(refusal) => put_refused(out, at, u8::from(refusal) as usize),
    }
}
