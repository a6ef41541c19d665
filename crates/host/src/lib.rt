// The functions of the C library, which crates/host_c hands to C: a thin one for each operation. C has no
// Result, so an answer is given through `&mut` numbers, and each returns 0 or the refusal's number. A
// refusal leaves everything lent as it was. The float functions at the end refuse nothing and return their value.
#![tactic(auto)]

ghost use Rattle.std.specs.Prelude.{◌≡◌, length};
ghost use Rattle.params.specs.Params.{mode_from, code_of, given, kind_codes};
ghost use Rattle.root.specs.Root.{root_of};
ghost use Rattle.ieee.specs.Narrow.{narrow_of};
ghost use Rattle.complex.specs.Complex.{pair, norm32, norm64};
ghost use Rattle.angle.specs.Angle.{angle_of};
ghost use Rattle.cfo_frac.specs.CfoFrac.{cfo_frac};
ghost use Rattle.prbs.specs.SignMap.{SignMap};
ghost use Rattle.frame.specs.Operations.{RoleMap};
ghost use Rattle.carrier_lists.specs.Operations.{DataList};
ghost use Rattle.chanest.specs.Grid.{GridEstimated};
ghost use Rattle.carrier_role.specs.CarrierRole.{role_answer};
ghost use Rattle.host.specs.Host.{CarrierBin, RoleLent, ContinualCount, BinRatioLent, ShiftLent, KindsLent};
ghost use Rattle.host.specs.Host.{SamplesLent, GuessLent, SoftLent, PhaseLent, StartLent};
ghost use Rattle.samples_needed.specs.Samples.{samples_answer};
ghost use Rattle.guess.specs.Guess.{guess_answer, scratch_leaves};
ghost use Rattle.ratio.specs.Ratio.{bin_ratio_answer};
ghost use Rattle.tmcc.specs.Tmcc.{soft_answer};

use complex::{C32, C64};
use ofdm::BandCarrier;
use params::{Refusal, SegmentKind};
use pilot_times::Current;

// Hands an answer on to what is lent for it, and tells its number.
fn lend<T: Copy>(answer: Result<T, Refusal>, lent: &mut T) -> u8
    ensures { (result ≡ code_of answer) × (lent.new ≡ given (λ x. x) answer lent.old) }
{
    match answer {
        Ok(value) => {
            *lent = value;
            0
        }
        Err(refusal) => u8::from(refusal),
    }
}

// The codes of thirteen kinds.
fn codes_of(kinds: [SegmentKind; 13]) -> [u8; 13]
    ensures { result ≡ kind_codes kinds }
{
    kinds.map(u8::from)
}

// The FFT bin of carrier k.
pub fn sillurwy_carrier_bin(mode: u8, k: usize, bin: &mut usize) -> u8
    ensures { CarrierBin (mode_from mode) k bin.old result bin.new }
{
    let found = ofdm::bin_lookup(mode, BandCarrier(k)).map(|at| at.0);
    lend(found, bin)
}

// The role byte of each carrier of the band.
pub fn sillurwy_role_map(mode: u8, phase: u8, kinds: &[u8], out: &mut [u8]) -> u8
    ensures { RoleMap (mode_from mode) phase kinds.now out.old result out.new }
{
    params::number_of(frame::role_map(mode, phase, kinds, out))
}

// The role byte of one carrier of the band.
pub fn sillurwy_carrier_role(mode: u8, phase: u8, kinds: &[u8], k: usize, role: &mut u8) -> u8
    ensures { RoleLent (role_answer (mode_from mode) phase kinds.now k) role.old result role.new }
{
    let found = carrier_role::carrier_role(mode, phase, kinds, BandCarrier(k)).map(u8::from);
    lend(found, role)
}

// The pilot sign of each carrier of the band.
pub fn sillurwy_sign_map(mode: u8, out: &mut [u8]) -> u8
    ensures { SignMap (mode_from mode) out.old result out.new }
{
    params::number_of(prbs::sign_map(mode, out))
}

// The data carriers of the band, in segment-number order.
pub fn sillurwy_data_list(mode: u8, phase: u8, kinds: &[u8], out: &mut [u32]) -> u8
    ensures { DataList (mode_from mode) phase kinds.now out.old result out.new }
{
    params::number_of(carrier_lists::data_list(mode, phase, kinds, out))
}

// The continual carriers of the band, and how many there are.
pub fn sillurwy_continual_list(mode: u8, kinds: &[u8], out: &mut [u32], count: &mut usize) -> u8
    ensures { ContinualCount (mode_from mode) kinds.now out.old count.old result
        out.new count.new }
{
    lend(carrier_lists::continual_list(mode, kinds, out), count)
}

// Samples that the guard search needs for at least `symbols` symbols.
pub fn sillurwy_samples_needed(
    modes: &[u8],
    guards: &[u8],
    symbols: usize,
    samples: &mut usize,
) -> u8
    ensures { SamplesLent (samples_answer modes.now guards.now symbols)
        samples.old result samples.new }
{
    lend(
        samples_needed::samples_needed(modes, guards, symbols),
        samples,
    )
}

// The guard search: whether something is found, then the guess. Where nothing is found, what was lent
// for the guess stays as it was.
pub fn sillurwy_detect_mode(
    samples: &[f32],
    modes: &[u8],
    guards: &[u8],
    scratch: &mut [f64],
    found: &mut u8,
    mode: &mut u8,
    guard: &mut u8,
    offset: &mut usize,
    metric: &mut f64,
    re: &mut f64,
    im: &mut f64,
) -> u8
    ensures { GuessLent (guess_answer samples.now modes.now guards.now (length scratch.old))
        found.old mode.old guard.old offset.old metric.old re.old im.old result
        found.new mode.new guard.new offset.new metric.new re.new im.new
        × scratch.new ≡ scratch_leaves (length samples.now) modes.now guards.now scratch.old }
{
    match guess::detect_mode(samples, modes, guards, scratch) {
        Ok(Some(guess)) => {
            *found = 1;
            *mode = guess.mode;
            *guard = guess.guard;
            *offset = guess.offset;
            *metric = guess.metric;
            *re = guess.correlation.re;
            *im = guess.correlation.im;
            0
        }
        Ok(None) => {
            *found = 0;
            0
        }
        Err(refusal) => u8::from(refusal),
    }
}

// The soft value of the TMCC carriers between two spectra.
pub fn sillurwy_tmcc_soft(
    mode: u8,
    kinds: &[u8],
    spectra: &[f32],
    filter: u8,
    value: &mut f32,
) -> u8
    ensures { SoftLent (soft_answer (mode_from mode) kinds.now spectra.now filter)
        value.old result value.new }
{
    lend(tmcc::tmcc_soft(mode, kinds, spectra, filter), value)
}

// The ratio of one bin, from its pairs in symbol order.
pub fn sillurwy_bin_ratio(pairs: &[f32], ratio: &mut f32) -> u8
    ensures { BinRatioLent (bin_ratio_answer pairs.now) ratio.old result ratio.new }
{
    lend(ratio::bin_ratio(pairs), ratio)
}

// The shift of spectra, and its score; their ratios stay in `ratios`.
pub fn sillurwy_integer_cfo(
    mode: u8,
    spectra: &[f32],
    bound: usize,
    ratios: &mut [f32],
    shift: &mut i64,
    score: &mut f32,
) -> u8
    ensures { ShiftLent (mode_from mode) spectra.now bound ratios.old shift.old score.old result
        ratios.new shift.new score.new }
{
    match shift::integer_cfo(mode, spectra, bound, ratios) {
        Ok(found) => {
            *shift = found.shift;
            *score = found.score;
            0
        }
        Err(refusal) => u8::from(refusal),
    }
}

// The kinds of the thirteen segments and their scores, by segment number; the ratios stay in `ratios`.
pub fn sillurwy_detect_kinds(
    mode: u8,
    spectra: &[f32],
    ratios: &mut [f32],
    kinds: &mut [u8; 13],
    scores: &mut [f32; 13],
) -> u8
    ensures { KindsLent (mode_from mode) spectra.now ratios.old kinds.old scores.old result
        ratios.new kinds.new scores.new }
{
    match segment_kinds::detect_kinds(mode, spectra, ratios) {
        Ok(found) => {
            *kinds = codes_of(found.kinds);
            let found_scores = found.scores; // by a variable: handed on at once, the array of a struct got no proof
            *scores = found_scores;
            0
        }
        Err(refusal) => u8::from(refusal),
    }
}

// The pilot phase: whether there are scattered pilots, then the phase and its share; the four counts and
// the lead. Without scattered pilots, what was lent for phase and share stays as it was.
pub fn sillurwy_detect_sp_phase(
    mode: u8,
    kinds: &[u8],
    spectra: &[f32],
    found: &mut u8,
    phase: &mut u8,
    share: &mut f32,
    counts: &mut [u32; 4],
    lead: &mut u32,
) -> u8
    ensures { PhaseLent (mode_from mode) kinds.now spectra.now
        found.old phase.old share.old counts.old lead.old result
        found.new phase.new share.new counts.new lead.new }
{
    match pilot_phase::detect_sp_phase(mode, kinds, spectra) {
        Ok(answer) => {
            let votes = answer.counts; // by a variable: handed on at once, the array of a struct got no proof
            *counts = votes;
            *lead = answer.lead;
            match answer.phase {
                Some(told) => {
                    *found = 1;
                    *phase = told.phase;
                    *share = told.share;
                }
                None => *found = 0,
            }
            0
        }
        Err(refusal) => u8::from(refusal),
    }
}

// A start at which soft TMCC values spell a synchronising word: whether there is one, then the start and
// the word's code. Where there is none, what was lent for start and word stays as it was. Nothing is
// refused.
pub fn sillurwy_frame_start(soft: &[f32], found: &mut u8, start: &mut usize, word: &mut u8) -> u8
    ensures { StartLent soft.now start.old word.old result
        found.new start.new word.new }
{
    let Some(told) = frame_start::frame_start(soft) else {
        *found = 0;
        return 0;
    };
    *found = 1;
    *start = told.start;
    *word = told.word.into();
    0
}

// The channel at the points of the grid.
pub fn sillurwy_estimate_grid(
    mode: u8,
    phase: u8,
    kinds: &[u8],
    spectra: &[f32],
    index: usize,
    w: usize,
    grid: &mut [f32],
) -> u8
    ensures { GridEstimated (mode_from mode) kinds.now spectra.now (record { phase = phase; index = index; w = w })
        grid.old result grid.new }
{
    let current = Current { phase, index, w };
    params::number_of(chanest::estimate_grid(mode, kinds, spectra, current, grid))
}

// The f64 nearest to the root of x.
pub fn sillurwy_root(x: f64) -> f64
    ensures { result ≡ root_of x }
{
    root::root(x)
}

// The f32 nearest to x.
pub fn sillurwy_narrow(x: f64) -> f32
    ensures { result ≡ narrow_of x }
{
    ieee::narrow(x)
}

// The norm of an f32 pair.
pub fn sillurwy_norm32(re: f32, im: f32) -> f32
    ensures { result ≡ norm32 (pair re im) }
{
    C32::new(re, im).norm()
}

// The norm of an f64 pair.
pub fn sillurwy_norm64(re: f64, im: f64) -> f64
    ensures { result ≡ norm64 (pair re im) }
{
    C64::new(re, im).norm()
}

// The angle of the pair (re, im), in 1/65536 of a turn.
pub fn sillurwy_angle(re: f64, im: f64) -> i32
    ensures { result ≡ angle_of (pair re im) }
{
    angle::angle(C64::new(re, im))
}

// The fractional carrier offset that the summed correlation (re, im) of a guess tells, in carrier
// spacings.
pub fn sillurwy_cfo_frac(re: f64, im: f64) -> f64
    ensures { result ≡ cfo_frac (pair re im) }
{
    cfo_frac::cfo_frac(C64::new(re, im))
}
