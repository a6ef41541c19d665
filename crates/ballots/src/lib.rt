// One spectrum's ballot for the scattered-pilot phase (acquire.rs of isdb-rs, `detect_sp_phase`): for each
// phase, products of pilots 12 carriers apart, their known signs multiplied in, add up coherently for the
// right phase alone.
#![tactic(auto)]

ghost use Rattle.params.specs.Params.{kind_codes};
ghost use Rattle.std.specs.Prelude.{◌≡◌, ◌*◌, ◌≤◌, ◌<◌, length};
ghost use Rattle.complex.specs.Complex.{of32};
ghost use Rattle.spectra.specs.Spectra.{pair_at};
ghost use Rattle.ballots.specs.Ballots.{ballot_of};
ghost use Rattle.ballots.specs.Inner.{Parted, Sized, PilotAt, Joined, Walkable, Walks, Spectrum, coherence, some_pilots};

use complex::C32;
use frame::FrameLayout;
use ofdm::{BandCarrier, BandPlace, SegmentPlace};
use params::{Phase, SegmentKind};

const MINUS_ONE: f32 = -1.0;

// A pilot that was passed: its carrier's pair times its value, and the norm of that.
#[derive(Clone, Copy)]
pub struct Last {
    pub value: C32,
    pub norm: f32,
}

// Sums over pilots 12 carriers apart, and the last pilot, if the next is 12 further on.
#[derive(Clone, Copy)]
pub struct Run {
    pub last: Option<Last>,
    pub sum: C32,
    pub energy: f32,
}

// A carrier's pair times its pilot's value, which takes the pilot's sign out of it; and its squared size.
#[derive(Clone, Copy)]
pub struct Pilot {
    pub value: C32,
    pub square: f64,
}

// What one symbol says of the phase.
#[derive(Clone, Copy)]
pub struct Ballot {
    // The phase with the greatest metric, as the symbol itself has it.
    // No `Phase`: the definition of a ballot would have to prove it below 4 where it only works it out.
    pub choice: u8,
    // Whether the pilots of at least one of the four phases have energy.
    pub heard: bool,
}

impl Run {
    // The next pilot is not 12 further on.
    fn apart(self) -> Run
        ensures { Parted self result }
    {
        Run { last: None, ..self }
    }

    // A pilot more.
    fn join(self, pilot: Pilot) -> Run
        requires { Sized pilot }
        ensures { Joined self (of32 pilot.value) result }
    {
        let norm = root::narrow_root(pilot.square);
        let last = Some(Last {
            value: pilot.value,
            norm,
        });
        match self.last {
            None => Run { last, ..self },
            Some(before) => Run {
                last,
                sum: self.sum + pilot.value * before.value.conj(),
                energy: self.energy + before.norm * norm,
            },
        }
    }
}

// A spectrum of a layout, and the sign of each of its carriers.
#[derive(Clone, Copy)]
struct Signed<'a> {
    layout: FrameLayout,
    y: &'a [f32],
    signs: &'a [u8],
    ghost spectrum: { Spectrum layout.mode (length y.now) signs.now },
    ghost as_many: { length y.now ≡ 2 * length signs.now },
    ghost few: { length signs.now ≤ 5617 },
}

impl Signed<'_> {
    // The pilot at carrier k.
    fn pilot_at(&self, carrier: BandCarrier) -> Pilot
        requires { carrier.0 < length self.now.signs.now }
        ensures { PilotAt self.now.y.now self.now.signs.now carrier.0 result }
    {
        let k = carrier.0;
        let x = spectra::pair_at(self.y, k);
        let pilot = pilots::pilot_value(self.signs[k]);
        let value = x.scale(pilot.re);
        Pilot {
            value,
            square: value.wide_norm_sqr(),
        }
    }

    // The pilots of a coherent segment from its lowest on: `count` of them, 12 carriers apart. Each is
    // read before the root of the one below it is taken: neither waits for the other, so the processor
    // works at both.
    fn walk_segment(&self, start: Run, lowest: BandCarrier, count: usize) -> Run
        requires { Walkable lowest.0 count (length self.now.signs.now) }
        ensures { Walks start self.now.y.now self.now.signs.now lowest.0 count result }
    {
        let mut run = start;
        let mut pilot = self.pilot_at(lowest);
        for i in 1..count {
            let next = self.pilot_at(BandCarrier(lowest.0 + 12 * i));
            run = run.join(pilot);
            pilot = next;
        }
        run.join(pilot)
    }

    // How coherent the pilots of a phase are, if they have energy: a NaN is not above zero.
    fn phase_metric(&self, phase: Phase) -> Option<f32>
        ensures { result ≡ coherence self.now.layout.mode (kind_codes self.now.layout.kinds) (pair_at self.now.y.now) phase.number }
    {
        let mode = self.layout.mode;
        let c = mode.carriers_per_segment();
        let mut run = Run {
            last: None,
            sum: C32::new(0.0, 0.0),
            energy: 0.0,
        };
        for place in 0..13 {
            let here = BandPlace(place);
            match self.layout.kind(ofdm::segment_at_position(here)) {
                SegmentKind::Coherent => {
                    let lowest = ofdm::band_carrier(
                        mode,
                        here,
                        SegmentPlace(3 * phase.number as usize),
                    );
                    run = self.walk_segment(run, lowest, c / 12);
                }
                SegmentKind::Differential => {
                    run = run.apart();
                }
            }
        }
        if run.energy > 0.0 {
            Some(run.sum.re / run.energy)
        } else {
            None
        }
    }
}

// The ballot of the spectrum y: the first phase with the greatest metric, and whether any has energy.
pub fn ballot_of(layout: FrameLayout, y: &[f32], signs: &[u8]) -> Ballot
    requires { Spectrum layout.mode (length y.now) signs.now }
    ensures { result ≡ ballot_of layout.mode (kind_codes layout.kinds) (pair_at y.now) }
{
    let spectrum = Signed { layout, y, signs };
    let mut best: u8 = 0;
    let mut metric = MINUS_ONE;
    let mut heard = false;
    for phase in 0..4 {
        let found = spectrum.phase_metric(Phase { number: phase });
        // A phase without energy is compared by 0.0.
        let m = found.unwrap_or(0.0);
        if m > metric {
            best = phase;
            metric = m;
        }
        heard = heard | found.is_some();
    }
    Ballot {
        choice: best,
        heard,
    }
}

// Whether a segment is coherent, and so has scattered pilots.
pub fn has_pilots(layout: FrameLayout) -> bool
    ensures { result ≡ some_pilots layout.mode (kind_codes layout.kinds) }
{
    layout.kinds.contains(&SegmentKind::Coherent)
}
