// A question of document 01: 17 bytes, `mode,phase,kinds`. Whether a line has that form, and what
// refuses it.
#![tactic(auto)]

ghost use Rattle.std.specs.Prelude.{◌≡◌, IfOk, length};
ghost use Rattle.params.specs.Params.{code_of};
ghost use Rattle.question.specs.Question.{line_code};
ghost use Rattle.question.specs.Asked.{DigitTold, LetterTold, LettersTold, Asked};

use params::{Mode, Phase, Refusal, SegmentKind};

// What a question asks.
#[derive(Clone, Copy)]
pub struct Question {
    pub mode: Mode,
    pub phase: Phase,
    pub kinds: [SegmentKind; 13],
}

// The value of a digit.
fn digit(b: u8) -> Result<u8, Refusal>
    ensures { DigitTold b result }
{
    match b {
        b'0'..=b'9' => Ok(b - b'0'),
        _ => Err(Refusal::BadForm),
    }
}

// The kind that a letter stands for.
fn kind_of(letter: u8) -> Result<SegmentKind, Refusal>
    ensures { LetterTold letter result }
{
    match letter {
        b'C' => Ok(SegmentKind::Coherent),
        b'D' => Ok(SegmentKind::Differential),
        _ => Err(Refusal::BadForm),
    }
}

// The kinds that thirteen letters stand for.
// `frame::read_kinds` has such a loop too. One function for both is no plainer: it would take a closure,
// and its contract would say what the closure gives for each entry. Over `kinds.iter_mut().zip(letters)` the
// proof did not close: it knows nothing of the entries that are written so.
fn read_kinds(letters: &[u8]) -> Result<[SegmentKind; 13], Refusal>
    requires { length letters.now ≡ 13 }
    ensures { LettersTold letters.now result }
{
    let mut kinds = [SegmentKind::Coherent; 13];
    for (i, letter) in letters.iter().enumerate() {
        kinds[i] = kind_of(*letter)?;
    }
    Ok(kinds)
}

impl Question {
    // The question that a line asks. Refused by 11 unless the line has the form of one, then by 1 for
    // its mode, then by 3 for its phase.
    #[tactic(auto, using(crate::proofs::Codes::modes), unfolding(crate::specs::Question::line_code, crate::specs::Question::is_question))]
    pub fn parse(line: &[u8]) -> Result<Question, Refusal>
        ensures code { code_of result ≡ line_code line.now }
        ensures asked { IfOk result (λ question. Asked line.now question) }
    {
        if line.len() != 17 || line[1] != b',' || line[3] != b',' {
            return Err(Refusal::BadForm);
        }
        let number = digit(line[0])?;
        let phase = digit(line[2])?;
        let kinds = read_kinds(&line[4..])?;
        let mode = Mode::try_from(number)?;
        let phase = Phase::try_from(phase)?;
        Ok(Question { mode, phase, kinds })
    }
}
