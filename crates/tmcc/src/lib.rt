// The soft value of the TMCC carriers between two symbols (acquire.rs of isdb-rs, `tmcc_soft`): below
// zero it reads as bit 1.
#![tactic(auto)]

ghost use Rattle.std.specs.Prelude.{◌≡◌, ◌*◌, length};
ghost use Rattle.params.specs.Params.{mode_from, total_carriers, kind_codes};
ghost use Rattle.tmcc.specs.Tmcc.{passes, soft_value, SoftTold};
ghost use Rattle.tmcc.specs.Inner.{filter_number, FilterTold, Addable, added_to};

use frame::FrameLayout;
use ofdm::{BandPlace, SegmentPlace};
use params::{Mode, Refusal, SegmentKind};

// The kind of the segments that a filter lets pass, or none where it lets all pass: 0 coherent, 1
// differential, 2 all.
fn filter_of(number: u8) -> Result<Option<SegmentKind>, Refusal>
    ensures { FilterTold number result }
{
    match number {
        0 => Ok(Some(SegmentKind::Coherent)),
        1 => Ok(Some(SegmentKind::Differential)),
        2 => Ok(None),
        _ => Err(Refusal::BadPhase),
    }
}

fn passes(filter: Option<SegmentKind>, kind: SegmentKind) -> bool
    ensures { result ≡ passes (filter_number filter) kind }
{
    filter.is_none_or(|only| only == kind)
}

// Adds the real parts of the products at places of the segment that has a place in the band. `spectra` are
// two, the earlier first.
fn add_places(start: f32, mode: Mode, place: BandPlace, places: &[u16], spectra: &[f32]) -> f32
    requires { Addable mode place.0 places.now (length spectra.now) }
    ensures { result ≡ added_to start mode place.0 spectra.now places.now }
{
    let len = mode.total_carriers();
    let mut sum = start;
    for p in places {
        let k = ofdm::band_carrier(mode, place, SegmentPlace(*p as usize));
        let later = spectra::pair_at(spectra, len + k.0);
        let earlier = spectra::pair_at(spectra, k.0);
        let product = later * earlier.conj();
        sum = sum + product.re;
    }
    sum
}

// The soft value of a layout.
fn soft_value(layout: FrameLayout, spectra: &[f32], filter: Option<SegmentKind>) -> f32
    requires { length spectra.now ≡ 4 * total_carriers layout.mode }
    ensures { result ≡ soft_value layout.mode (kind_codes layout.kinds) (filter_number filter) spectra.now }
{
    let mode = layout.mode;
    let mut sum = ieee::NEGATIVE_ZERO;
    for number in 0..13 {
        let place = BandPlace(number);
        let seg = ofdm::segment_at_position(place);
        let kind = layout.kind(seg);
        if passes(filter, kind) {
            let row = tables::tmcc_positions(mode, kind, seg);
            sum = add_places(sum, mode, place, row, spectra);
        }
    }
    sum
}

// Of two spectra of k_total carriers, the earlier first: the real parts of the products of the later and
// the conjugate of the earlier, summed over the TMCC carriers of the segments that the filter lets pass: 0
// coherent, 1 differential, 2 all. Mode, kinds and filter are numbers, as a C host lends them.
//
// Refused by 1 for a bad mode, 2 unless there are thirteen kinds of 0 or 1, 5 unless two spectra, 3 for
// another filter.
pub fn tmcc_soft(mode: u8, kinds: &[u8], spectra: &[f32], filter: u8) -> Result<f32, Refusal>
    ensures { SoftTold (mode_from mode) kinds.now spectra.now filter result }
{
    let layout = FrameLayout::new(mode, kinds)?;
    if spectra.len() != 4 * layout.mode.total_carriers() {
        return Err(Refusal::NotWhole);
    }
    let filter = filter_of(filter)?;
    Ok(soft_value(layout, spectra, filter))
}
