// The pilots' signs, after frame.rs of isdb-rs (ARIB STD-B31, 3.13.1): the register of Figure 3-31,
// loaded afresh for each segment, and the sign W of each carrier of the band.
#![tactic(auto)]

ghost use Rattle.std.specs.Prelude.{◌≡◌, ◌<◌, length};
ghost use Rattle.lists.specs.Lists.{up_to};
ghost use Rattle.params.specs.Params.{mode_from, code_of, carriers_per_segment, total_carriers};
ghost use Rattle.prbs.specs.Signs.{loaded, Step, sign_after, segment_signs, band_signs, edge_sign};
ghost use Rattle.prbs.specs.SignMap.{SignMap};

use ofdm::{BandPlace, Segment};
use params::{Mode, Refusal};

// The sign register of Figure 3-31: D1 to D11.
#[derive(Clone, Copy)]
pub struct Prbs {
    pub bits: [u8; 11],
}

impl Prbs {
    // The register of a row of Table 3-16, D1 its first binary digit of eleven.
    pub fn init(row: u16) -> Prbs
        ensures { result.bits ≡ loaded row }
    {
        // By a loop: over `std::array::from_fn` the proof did not close that the digits are `loaded row`.
        let mut bits = [0; 11];
        for (i, bit) in bits.iter_mut().enumerate() {
            *bit = ((row >> (10 - i)) % 2) as u8;
        }
        Prbs { bits }
    }

    // One step of x^11 + x^9 + 1: W is D11, and D9 xor D11 enters D1. W stays a number: a digit of the
    // register, and what a C host is handed for a sign.
    pub fn step(&mut self) -> u8
        ensures { Step self.old.bits result self.new.bits }
    {
        let d = self.bits;
        // Not `^`, which would give more than a bit where the register holds other bytes than 0 and 1.
        let feedback = u8::from(d[8] != d[10]);
        self.bits = [
            feedback, d[0], d[1], d[2], d[3], d[4], d[5], d[6], d[7], d[8], d[9],
        ];
        d[10]
    }
}

// The signs that a register gives, one for each entry of out.
fn run_register(start: Prbs, out: &mut [u8])
    ensures { out.new ≡ up_to (sign_after start.bits) (length out.old) }
{
    let mut register = start;
    for sign in out.iter_mut() {
        *sign = register.step();
    }
}

// W of a segment's carriers, lowest first.
pub fn segment_w(mode: Mode, seg: Segment, out: &mut [u8])
    requires { (length out.old ≡ carriers_per_segment mode) }
    ensures { out.new ≡ segment_signs mode seg.number }
{
    let row = tables::prbs_segment_init(mode, seg);
    run_register(Prbs::init(row), out);
}

// W of the edge carrier (Table 3-19).
pub fn edge_w(mode: Mode) -> u8
    ensures { result ≡ edge_sign mode }
{
    match mode {
        Mode::M1 => 1,
        Mode::M2 => 0,
        Mode::M3 => 0,
    }
}

// W of all carriers of the band, segment after segment from the lowest place.
pub fn band_w(mode: Mode, out: &mut [u8])
    requires { length out.old ≡ total_carriers mode }
    ensures { out.new ≡ band_signs mode }
{
    let c = mode.carriers_per_segment();
    for place in 0..13 {
        let seg = ofdm::segment_at_position(BandPlace(place));
        let from = ofdm::first_carrier(mode, BandPlace(place)).0;
        let to = from + c;
        segment_w(mode, seg, &mut out[from..to]);
    }
    let edge = ofdm::first_carrier(mode, BandPlace(13)).0;
    out[edge] = edge_w(mode);
}

// Sign map: W of each carrier of the band, 0 for +4/3 and 1 for -4/3. The mode is a number, as a C host
// gives it.
//
// Refused by 1 for a bad mode, 7 unless the output has k_total bytes.
pub fn sign_map(mode: u8, out: &mut [u8]) -> Result<(), Refusal>
    ensures { SignMap (mode_from mode) out.old (code_of result) out.new }
{
    let m = Mode::try_from(mode)?;
    if out.len() != m.total_carriers() {
        return Err(Refusal::WrongLength);
    }
    band_w(m, out);
    Ok(())
}
