// The start of a frame (rx/mod.rs of isdb-rs, `step_acquire`): a place in a list of soft TMCC values at
// which sixteen of them spell one of the two synchronising words of ARIB STD-B31.
#![tactic(auto)]

ghost use Rattle.std.specs.Prelude.{◌≡◌, take};
ghost use Rattle.std.specs.List.{fold};
ghost use Rattle.frame_start.specs.FrameStart.{word_code, bit_of, StartTold};
ghost use Rattle.frame_start.specs.Inner.{shifted_in};

// The words, the first bit the highest.
const W0: u16 = 0b0011_0101_1110_1110;

const W1: u16 = 0b1100_1010_0001_0001;

// A synchronising word: as the standard writes it, or its complement.
#[derive(Clone, Copy, Debug, PartialEq, Eq)]
pub enum SyncWord {
    W0 = 0,
    W1 = 1,
}

// 0 for the word as written, 1 for its complement.
impl From<SyncWord> for u8 {
    ghost from_gives = { λ word code. code ≡ word_code word };

    fn from(word: SyncWord) -> u8 {
        word as u8
    }
}

// The index of a word's first value, and which word it is.
#[derive(Clone, Copy, Debug, PartialEq, Eq)]
pub struct FrameStart {
    pub start: usize,
    pub word: SyncWord,
}

// The bit that a soft value reads as: a NaN and zeros of both signs are not below zero.
#[tactic(auto, unfolding(crate::specs::FrameStart::bit_of))]
fn bit(value: f32) -> u16
    ensures { result ≡ bit_of value }
{
    u16::from(value < 0.0)
}

// The last sixteen bits with that of one value more: the oldest is shifted out.
#[tactic(auto, using(crate::proofs::Bits::bit_below))]
fn shifted(bits: u16, value: f32) -> u16
    ensures { result ≡ shifted_in bits (bit_of value) }
{
    (bits << 1) + bit(value)
}

// The bits of the first fifteen values, or of all where there are fewer.
fn first_bits(soft: &[f32]) -> u16
    ensures { result ≡ fold (λ bits v. shifted_in bits (bit_of v)) 0 (take 15 soft.now) }
{
    soft.iter()
        .take(15)
        .fold(0, |bits, value| shifted(bits, *value))
}

// A start at which one of the words stands. Each value is read once: the last sixteen bits are carried
// along from start to start.
#[tactic(auto, using(crate::proofs::Register::begin, crate::proofs::Register::word_ends))]
pub fn frame_start(soft: &[f32]) -> Option<FrameStart>
    ensures { StartTold soft.now result }
{
    let mut bits = first_bits(soft);
    for (start, value) in soft.get(15..)?.iter().enumerate() {
        bits = shifted(bits, *value);
        if bits == W0 {
            return Some(FrameStart {
                start,
                word: SyncWord::W0,
            });
        }
        if bits == W1 {
            return Some(FrameStart {
                start,
                word: SyncWord::W1,
            });
        }
    }
    None
}
