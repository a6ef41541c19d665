// The kinds of the thirteen segments (acquire.rs of isdb-rs, `detect_kinds`): a segment is differential
// where the carriers that are continual in a differential segment only (CP, AC2, differential TMCC) are
// coherent over time.
#![tactic(auto)]

ghost use Rattle.std.specs.Prelude.{◌≡◌, ◌<◌, ◌∷◌, ◌++◌, length};
ghost use Rattle.params.specs.Params.{mode_from, total_carriers, kind_code};
ghost use Rattle.segment_kinds.specs.SegmentKinds.{kind_score, kind_of_score, kind_scores, detected_kinds, AllDetected, KindsDetected};
ghost use Rattle.segment_kinds.specs.Inner.{is_telling, ratio_at, kept, mean_of, Scorable, Banded};

use ofdm::{BandPlace, Segment, SegmentPlace};
use params::{Mode, Refusal, SegmentKind};

const HALF: f32 = 0.5;

// Kinds and their scores, by segment number: two lists, as a C host lends them.
#[derive(Clone, Copy)]
pub struct DetectedKinds {
    pub kinds: [SegmentKind; 13],
    pub scores: [f32; 13],
}

// A segment as its score sees it: the ratios of the band, the segment's place there, and the places that
// are continual in a coherent segment too.
#[derive(Clone, Copy)]
struct SegmentRatios<'a> {
    mode: Mode,
    at: BandPlace,
    tmcc: &'a [u16],
    ac1: &'a [u16],
    ratios: &'a [f32],
    ghost inside: { at.0 < 13 },
    ghost band: { length ratios.now ≡ total_carriers mode },
}

impl SegmentRatios<'_> {
    // Whether p is in neither list of coherent places.
    fn is_telling(&self, p: u16) -> bool
        ensures { result ≡ is_telling self.now.tmcc.now self.now.ac1.now p }
    {
        !self.tmcc.contains(&p) && !self.ac1.contains(&p)
    }

    // The mean ratio of the telling ones among place 0, AC2 and differential TMCC.
    fn mean_ratio(&self, ac2: &[u16], differential: &[u16]) -> f32
        requires { Scorable self.now.mode ac2.now differential.now }
        ensures { result ≡ mean_of (ratio_at self.now.mode self.now.at.0 self.now.ratios.now)
            (kept self.now.tmcc.now self.now.ac1.now (0 ∷ (ac2.now ++ differential.now))) }
    {
        // One walk gives both: by `sum` and `count` there would be two.
        let mut sum = ieee::NEGATIVE_ZERO;
        let mut count: usize = 0;
        for p in [0].iter().chain(ac2).chain(differential) {
            if self.is_telling(*p) {
                let carrier = ofdm::band_carrier(self.mode, self.at, SegmentPlace(*p as usize));
                sum = sum + self.ratios[carrier.0];
                count += 1;
            }
        }
        sum / count as f32
    }
}

// The mean ratio of a segment's telling places. `ratios` are those of the band.
fn segment_score(mode: Mode, seg: Segment, ratios: &[f32]) -> f32
    requires { Banded mode seg.number (length ratios.now) }
    ensures { result ≡ kind_score mode ratios.now seg.number }
{
    let segment = SegmentRatios {
        mode,
        at: ofdm::segment_position(seg),
        tmcc: tables::tmcc_positions(mode, SegmentKind::Coherent, seg),
        ac1: tables::ac1_positions(mode, SegmentKind::Coherent, seg),
        ratios,
    };
    let ac2 = tables::ac2_positions(mode, SegmentKind::Differential, seg);
    let differential = tables::tmcc_positions(mode, SegmentKind::Differential, seg);
    segment.mean_ratio(ac2, differential)
}

// Differential above 0.5, else coherent.
fn kind_of(score: f32) -> SegmentKind
    ensures { kind_code result ≡ kind_of_score score }
{
    if score > HALF {
        SegmentKind::Differential
    } else {
        SegmentKind::Coherent
    }
}

// The kinds and scores of all segments. `ratios` are those of the band.
fn detected(mode: Mode, ratios: &[f32]) -> DetectedKinds
    requires { length ratios.now ≡ total_carriers mode }
    ensures { AllDetected (detected_kinds mode ratios.now) (kind_scores mode ratios.now) result }
{
    let scores = std::array::from_fn(
        |seg|
            requires { Banded mode seg (length ratios.now) }
        { segment_score(mode, Segment { number: seg }, ratios) },
    );
    let kinds = scores.map(kind_of);
    DetectedKinds { kinds, scores }
}

// The kinds of spectra of k_total carriers each, by their ratios, which are written to `ratios` and
// stay there. The mode is a number, as a C host lends it.
//
// Refused by 1 for a bad mode, 5 unless whole spectra, at most 1,024, 6 if none, 7 unless k_total
// ratios.
pub fn detect_kinds(mode: u8, spectra: &[f32], ratios: &mut [f32]) -> Result<DetectedKinds, Refusal>
    ensures { KindsDetected (mode_from mode) spectra.now ratios.old result ratios.new }
{
    let m = Mode::try_from(mode)?;
    ratio::continual_metric(spectra, m.total_carriers(), ratios)?;
    Ok(detected(m, ratios))
}
