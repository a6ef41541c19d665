// Transmission parameters, after params.rs of isdb-rs: modes, guard intervals and segment kinds
// with their codes, and the sizes that follow from a mode (ARIB STD-B31, Tables 3-1 and 3-2).
//
// An operation turns each code that it is given into one of these types as it begins, and refuses a code
// that none of them has. A few codes stay numbers; a comment says why where each stands.
#![tactic(auto)]

mod phase;

ghost use Rattle.std.specs.Prelude.{◌≡◌};
ghost use Rattle.params.specs.Params.{mode_number, kind_code, kind_from, refusal_number, code_of, ModeTold, GuardTold, KindTold};
ghost use Rattle.params.specs.Params.{carriers_per_segment, data_carriers_per_segment, total_carriers, fft_size};

pub use phase::Phase;

// Why a call is refused. The numbers are what a C host is told, and stay.
#[derive(Clone, Copy, Debug, PartialEq, Eq)]
pub enum Refusal {
    // A mode that is not 1, 2 or 3.
    BadMode = 1,
    // Anything but thirteen kinds of 0 or 1.
    BadKinds = 2,
    // A phase above 3, a filter above 2.
    BadPhase = 3,
    // A carrier that the band does not have, an index that the window does not have.
    Outside = 4,
    // Not whole spectra or pairs, or more than are taken.
    NotWhole = 5,
    // No spectrum.
    NoSpectra = 6,
    // A lent list that is not as long as it must be.
    WrongLength = 7,
    // A bound of the shift above n/2.
    BadBound = 8,
    // A guard that is not 4, 8, 16 or 32.
    BadGuard = 9,
    // More than 64 symbols, a time window above 64.
    TooWide = 10,
    // A line that has not the form of a question.
    BadForm = 11,
}

impl From<Refusal> for u8 {
    ghost from_gives = { λ refusal number. number ≡ refusal_number refusal };

    fn from(refusal: Refusal) -> u8 {
        refusal as u8
    }
}

// What a C host is told of an answer that hands nothing back: 0, or the number of what refused it.
pub fn number_of(answer: Result<(), Refusal>) -> u8
    ensures { result ≡ code_of answer }
{
    match answer {
        Ok(()) => 0,
        Err(refusal) => u8::from(refusal),
    }
}

// System mode.
#[derive(Clone, Copy, Debug, PartialEq, Eq)]
pub enum Mode {
    // 108 carriers a segment, 2k FFT.
    M1 = 1,
    // 216 carriers a segment, 4k FFT.
    M2 = 2,
    // 432 carriers a segment, 8k FFT.
    M3 = 3,
}

impl From<Mode> for u8 {
    ghost from_gives = { λ mode number. number ≡ mode_number mode };

    fn from(mode: Mode) -> u8 {
        mode as u8
    }
}

impl TryFrom<u8> for Mode {
    type Error = Refusal;

    ghost try_from_gives = { ModeTold };

    fn try_from(number: u8) -> Result<Mode, Refusal> {
        match number {
            1 => Ok(Mode::M1),
            2 => Ok(Mode::M2),
            3 => Ok(Mode::M3),
            _ => Err(Refusal::BadMode),
        }
    }
}

impl Mode {
    // In the order of their numbers.
    pub const ALL: [Mode; 3] = [Mode::M1, Mode::M2, Mode::M3];

    // Carriers of a segment, c.
    pub fn carriers_per_segment(self) -> usize
        ensures { result ≡ carriers_per_segment self }
    {
        match self {
            Mode::M1 => 108,
            Mode::M2 => 216,
            Mode::M3 => 432,
        }
    }

    // Data carriers of a segment, nc.
    pub fn data_carriers_per_segment(self) -> usize
        ensures { result ≡ data_carriers_per_segment self }
    {
        match self {
            Mode::M1 => 96,
            Mode::M2 => 192,
            Mode::M3 => 384,
        }
    }

    // Carriers of the band with its edge, k_total.
    pub fn total_carriers(self) -> usize
        ensures { result ≡ total_carriers self }
    {
        match self {
            Mode::M1 => 1405,
            Mode::M2 => 2809,
            Mode::M3 => 5617,
        }
    }

    // Bins of the FFT, n.
    pub fn fft_size(self) -> usize
        ensures { result ≡ fft_size self }
    {
        match self {
            Mode::M1 => 2048,
            Mode::M2 => 4096,
            Mode::M3 => 8192,
        }
    }
}

// Guard interval ratio.
#[derive(Clone, Copy, Debug, PartialEq, Eq)]
pub enum GuardInterval {
    G1_4,
    G1_8,
    G1_16,
    G1_32,
}

// By its denominator.
impl TryFrom<usize> for GuardInterval {
    type Error = Refusal;

    ghost try_from_gives = { GuardTold };

    fn try_from(denominator: usize) -> Result<GuardInterval, Refusal> {
        match denominator {
            4 => Ok(GuardInterval::G1_4),
            8 => Ok(GuardInterval::G1_8),
            16 => Ok(GuardInterval::G1_16),
            32 => Ok(GuardInterval::G1_32),
            _ => Err(Refusal::BadGuard),
        }
    }
}

// Modulation type of an OFDM segment.
#[derive(Clone, Copy, Debug, PartialEq, Eq)]
pub enum SegmentKind {
    // QPSK, 16QAM or 64QAM with scattered pilots.
    Coherent = 0,
    // DQPSK with a continual pilot.
    Differential = 1,
}

impl From<SegmentKind> for u8 {
    ghost from_gives = { λ kind code. code ≡ kind_code kind };

    fn from(kind: SegmentKind) -> u8 {
        kind as u8
    }
}

impl TryFrom<u8> for SegmentKind {
    type Error = Refusal;

    ghost try_from_gives = { KindTold };

    fn try_from(code: u8) -> Result<SegmentKind, Refusal> {
        match code {
            0 => Ok(SegmentKind::Coherent),
            1 => Ok(SegmentKind::Differential),
            _ => Err(Refusal::BadKinds),
        }
    }
}

impl SegmentKind {
    // The kind of a code where any code above 0 is differential. A code that has to be one of the two goes
    // through `try_from`. No `impl From`: Rust has only one of From and TryFrom between two types.
    pub fn from_code(code: u8) -> SegmentKind
        ensures { result ≡ kind_from code }
    {
        match code {
            0 => SegmentKind::Coherent,
            _ => SegmentKind::Differential,
        }
    }
}
