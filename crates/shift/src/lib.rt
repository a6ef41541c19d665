// The integer frequency offset in carrier spacings (acquire.rs of isdb-rs, `integer_cfo`): the
// pattern of AC1 carriers and the edge is laid over the ratios of all bins at every shift from -bound
// to bound, and the greatest sum wins.
#![tactic(auto)]

ghost use Rattle.std.specs.Prelude.{◌≡◌, ◌≤◌, length};
ghost use Rattle.params.specs.Params.{mode_from};
ghost use Rattle.shift.specs.Shift.{pattern, Shifted};
ghost use Rattle.shift.specs.Inner.{segment_bins, Room, Put, sum_up, Movable, Bounded, BestFound};

use ofdm::{BandCarrier, FftBin, Segment, SegmentPlace};
use params::{Mode, Refusal, SegmentKind};

// A shift, and its score: the sum of the pattern's ratios divided by their number.
#[derive(Clone, Copy)]
pub struct FoundShift {
    pub shift: i64,
    pub score: f32,
}

// A shift, as its number from the lowest one, and its sum.
#[derive(Clone, Copy)]
pub struct Best {
    pub at: usize,
    pub sum: f32,
}

// Stores the bins of a segment's AC1 carriers from index `at` on, and gives the index behind.
// The whole buffer and an index: the rest of it as a slice is no plainer, since the caller would add up how
// much was stored, to cut the next slice and to lend the whole.
fn put_segment(mode: Mode, seg: Segment, out: &mut [u32], at: usize) -> usize
    requires { Room seg.number out.old at }
    ensures { Put (segment_bins mode seg.number) out.old at result out.new }
{
    let row = tables::ac1_positions(mode, SegmentKind::Coherent, seg);
    let place = ofdm::segment_position(seg);
    for (i, p) in row.iter().enumerate() {
        let k = ofdm::band_carrier(mode, place, SegmentPlace(*p as usize));
        let bin = ofdm::carrier_bin(mode, k);
        out[at + i] = bin.0 as u32;
    }
    at + row.len()
}

// Stores the pattern's bins from the front, AC1 carriers by segment number, then the edge, and lends
// them.
fn put_pattern(mode: Mode, out: &mut [u32]) -> &[u32]
    requires { 105 ≤ length out.old }
    ensures { result.now ≡ pattern mode }
{
    let mut at: usize = 0;
    for seg in 0..13 {
        at = put_segment(mode, Segment { number: seg }, out, at);
    }
    let edge = ofdm::carrier_bin(mode, BandCarrier(mode.total_carriers() - 1));
    out[at] = edge.0 as u32;
    &out[..at + 1]
}

// The sum of the ratios at the pattern's bins, each moved up by `up` modulo the ratios' length.
fn pattern_sum(bins: &[u32], ratios: &[f32], up: usize) -> f32
    requires { Movable bins.now (length ratios.now) up }
    ensures { result ≡ sum_up bins.now ratios.now up }
{
    let n = ratios.len();
    bins.iter()
        .map(|bin| ratios[ofdm::moved_up(FftBin(*bin as usize), up, n).0])
        .sum()
}

// The best of the shifts from -bound to bound: only a greater sum replaces. A shift is brought
// below n here, once, so that none of its bins takes a division.
fn search(bins: &[u32], ratios: &[f32], bound: usize) -> Best
    requires { Bounded bins.now (length ratios.now) bound }
    ensures { BestFound bins.now ratios.now bound result }
{
    let n = ratios.len();
    let mut best = Best {
        at: bound,
        sum: f32::MIN,
    };
    for j in 0..2 * bound + 1 {
        let sum = pattern_sum(bins, ratios, (j + (n - bound)) % n);
        if sum > best.sum {
            best = Best { at: j, sum };
        }
    }
    best
}

// The shift of spectra of n bins each, by their ratios, which are written to `ratios` and stay there.
// The mode is a number, since a C host lends it as one.
//
// Refused by 1 for a bad mode, 5 unless whole spectra, at most 1,024, 6 if none, 7 unless n ratios, 8
// for a bound above n/2.
pub fn integer_cfo(
    mode: u8,
    spectra: &[f32],
    bound: usize,
    ratios: &mut [f32],
) -> Result<FoundShift, Refusal>
    ensures { Shifted (mode_from mode) spectra.now bound ratios.old result ratios.new }
{
    let m = Mode::try_from(mode)?;
    let n = m.fft_size();
    ratio::refusal(n, spectra.len(), ratios.len())?;
    if bound > n / 2 {
        return Err(Refusal::BadBound);
    }
    ratio::write_ratios(spectra, n, ratios);
    let mut buffer = [0u32; 105];
    let bins = put_pattern(m, &mut buffer);
    let best = search(bins, ratios, bound);
    let shift = best.at as i64 - bound as i64;
    let score = best.sum / bins.len() as f32;
    Ok(FoundShift { shift, score })
}
