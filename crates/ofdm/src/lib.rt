// Carriers, places and FFT bins, after ofdm.rs of isdb-rs. A carrier's number in the band, its
// place in its segment, a segment's number, its place in the band and an FFT bin each count
// something else, so each has a type; what leads from one to another is a function here.
#![tactic(auto)]

ghost use Rattle.std.specs.Prelude.{◌≡◌, ◌<◌, ◌≤◌, ◌+◌, ◌*◌, ◌%◌};
ghost use Rattle.params.specs.Params.{mode_from, carriers_per_segment, total_carriers};
ghost use Rattle.ofdm.specs.Band.{segment_at, place_of, first_carrier, carrier_at, Placed, bin_of, BinLookedUp};

use params::{Mode, Refusal};

// A carrier's number in the band: 0 is the lowest frequency, k_total - 1 the edge.
#[derive(Clone, Copy, PartialEq, Eq)]
pub struct BandCarrier(pub usize);

// A carrier's place in its segment, from 0 to c - 1.
#[derive(Clone, Copy)]
pub struct SegmentPlace(pub usize);

// A bin of the FFT: bin 0 is the centre carrier.
#[derive(Clone, Copy)]
pub struct FftBin(pub usize);

// A segment's number, 0 to 12, as the standard counts from the band's middle.
#[derive(Clone, Copy)]
pub struct Segment {
    pub number: usize,
    ghost in_band: { number < 13 },
}

// A segment's place in the band, 0 to 12 from the lowest frequency. No ghost field says so: place 13,
// behind the last segment, is asked for too.
#[derive(Clone, Copy)]
pub struct BandPlace(pub usize);

const SEGMENT_AT: [usize; 13] = [11, 9, 7, 5, 3, 1, 0, 2, 4, 6, 8, 10, 12];

const PLACE_OF: [usize; 13] = [6, 5, 7, 4, 8, 3, 9, 2, 10, 1, 11, 0, 12];

// The segment at a place of the band.
#[tactic(auto, using(crate::specs::Laws::segment_below))]
pub fn segment_at_position(place: BandPlace) -> Segment
    requires { place.0 < 13 }
    ensures { result.number ≡ segment_at place.0 }
{
    Segment {
        number: SEGMENT_AT[place.0],
    }
}

// The place of a segment in the band.
#[tactic(auto, using(crate::specs::Laws::place_below))]
pub fn segment_position(seg: Segment) -> BandPlace
    ensures { (result.0 ≡ place_of seg.number) × (result.0 < 13) }
{
    BandPlace(PLACE_OF[seg.number])
}

// The lowest carrier of the segment at a place of the band. Place 13 is behind the last segment: the edge.
pub fn first_carrier(mode: Mode, place: BandPlace) -> BandCarrier
    requires { place.0 ≤ 13 }
    ensures { result.0 ≡ first_carrier mode place.0 }
{
    BandCarrier(place.0 * mode.carriers_per_segment())
}

// The carrier at a place of the segment that has a place in the band.
pub fn band_carrier(mode: Mode, place: BandPlace, p: SegmentPlace) -> BandCarrier
    requires { (place.0 < 13) × (p.0 < carriers_per_segment mode) }
    ensures { result.0 ≡ carrier_at mode place.0 p.0 }
{
    BandCarrier(first_carrier(mode, place).0 + p.0)
}

// Where a carrier is: its segment's place in the band, and its own place in that segment.
#[derive(Clone, Copy)]
pub struct CarrierPlace {
    pub place: BandPlace,
    pub p: SegmentPlace,
}

// The way back from `band_carrier`, for a carrier below the edge.
pub fn carrier_place(mode: Mode, k: BandCarrier) -> CarrierPlace
    requires { k.0 < first_carrier mode 13 }
    ensures { Placed mode k.0 result }
{
    let c = mode.carriers_per_segment();
    CarrierPlace {
        place: BandPlace(k.0 / c),
        p: SegmentPlace(k.0 % c),
    }
}

// The FFT bin of a carrier of the band.
pub fn carrier_bin(mode: Mode, k: BandCarrier) -> FftBin
    requires { k.0 < total_carriers mode }
    ensures { result.0 ≡ bin_of mode k.0 }
{
    let n = mode.fft_size();
    let center = (mode.total_carriers() - 1) / 2;
    FftBin((k.0 + (n - center)) % n)
}

// A bin moved up by `up` bins, round the n bins of an FFT. Both lie below n, so the sum comes round
// once at the most, and a subtraction does what a division would. No FFT has more than 8,192 bins,
// so the sum fits.
pub fn moved_up(bin: FftBin, up: usize, n: usize) -> FftBin
    requires { (bin.0 < n) × (up < n) × (n ≤ 8192) }
    ensures { result.0 ≡ (bin.0 + up) % n }
{
    let far = bin.0 + up;
    if far < n {
        return FftBin(far);
    }
    FftBin(far - n)
}

// The FFT bin of carrier k in a mode that is given by its number, as a C host gives it: refused by 1 for
// a bad mode, by 4 for a carrier that the band does not have.
#[tactic(auto, using(crate::specs::Laws::bin_looked_up))]
pub fn bin_lookup(mode: u8, k: BandCarrier) -> Result<FftBin, Refusal>
    ensures { BinLookedUp (mode_from mode) k.0 result }
{
    let m = Mode::try_from(mode)?;
    if m.total_carriers() <= k.0 {
        return Err(Refusal::Outside);
    }
    Ok(carrier_bin(m, k))
}
