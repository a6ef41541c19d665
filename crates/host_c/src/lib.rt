// The C library: every function of crates/host, under the same name and with the same clauses, so that
// a host can call it. Numbers pass as themselves, and a slice as a pointer and a length.
// The clauses stand in both crates: no crate can depend on a static library, so other crates call host.
#![tactic(auto)]

ghost use Rattle.std.specs.Prelude.{◌≡◌, length};
ghost use Rattle.params.specs.Params.{mode_from};
ghost use Rattle.root.specs.Root.{root_of};
ghost use Rattle.ieee.specs.Narrow.{narrow_of};
ghost use Rattle.complex.specs.Complex.{pair, norm32, norm64};
ghost use Rattle.angle.specs.Angle.{angle_of};
ghost use Rattle.cfo_frac.specs.CfoFrac.{cfo_frac};
ghost use Rattle.prbs.specs.SignMap.{SignMap};
ghost use Rattle.frame.specs.Operations.{RoleMap};
ghost use Rattle.carrier_lists.specs.Operations.{DataList};
ghost use Rattle.chanest.specs.Grid.{GridEstimated};
ghost use Rattle.carrier_role.specs.CarrierRole.{role_answer};
ghost use Rattle.host.specs.Host.{CarrierBin, RoleLent, ContinualCount, BinRatioLent, ShiftLent, KindsLent};
ghost use Rattle.host.specs.Host.{SamplesLent, GuessLent, SoftLent, PhaseLent, StartLent};
ghost use Rattle.samples_needed.specs.Samples.{samples_answer};
ghost use Rattle.guess.specs.Guess.{guess_answer, scratch_leaves};
ghost use Rattle.ratio.specs.Ratio.{bin_ratio_answer};
ghost use Rattle.tmcc.specs.Tmcc.{soft_answer};

// The FFT bin of carrier k.
#[unsafe(no_mangle)]
pub extern "C" fn sillurwy_carrier_bin(mode: u8, k: usize, bin: &mut usize) -> u8
    ensures { CarrierBin (mode_from mode) k bin.old result bin.new }
{
    host::sillurwy_carrier_bin(mode, k, bin)
}

// The role byte of each carrier of the band.
#[unsafe(no_mangle)]
pub extern "C" fn sillurwy_role_map(mode: u8, phase: u8, kinds: &[u8], out: &mut [u8]) -> u8
    ensures { RoleMap (mode_from mode) phase kinds.now out.old result out.new }
{
    host::sillurwy_role_map(mode, phase, kinds, out)
}

// The role byte of one carrier of the band.
#[unsafe(no_mangle)]
pub extern "C" fn sillurwy_carrier_role(
    mode: u8,
    phase: u8,
    kinds: &[u8],
    k: usize,
    role: &mut u8,
) -> u8
    ensures { RoleLent (role_answer (mode_from mode) phase kinds.now k) role.old result role.new }
{
    host::sillurwy_carrier_role(mode, phase, kinds, k, role)
}

// The pilot sign of each carrier of the band.
#[unsafe(no_mangle)]
pub extern "C" fn sillurwy_sign_map(mode: u8, out: &mut [u8]) -> u8
    ensures { SignMap (mode_from mode) out.old result out.new }
{
    host::sillurwy_sign_map(mode, out)
}

// The data carriers of the band, in segment-number order.
#[unsafe(no_mangle)]
pub extern "C" fn sillurwy_data_list(mode: u8, phase: u8, kinds: &[u8], out: &mut [u32]) -> u8
    ensures { DataList (mode_from mode) phase kinds.now out.old result out.new }
{
    host::sillurwy_data_list(mode, phase, kinds, out)
}

// The continual carriers of the band, and how many there are.
#[unsafe(no_mangle)]
pub extern "C" fn sillurwy_continual_list(
    mode: u8,
    kinds: &[u8],
    out: &mut [u32],
    count: &mut usize,
) -> u8
    ensures { ContinualCount (mode_from mode) kinds.now out.old count.old result
        out.new count.new }
{
    host::sillurwy_continual_list(mode, kinds, out, count)
}

// Samples that the guard search needs for at least `symbols` symbols.
#[unsafe(no_mangle)]
pub extern "C" fn sillurwy_samples_needed(
    modes: &[u8],
    guards: &[u8],
    symbols: usize,
    samples: &mut usize,
) -> u8
    ensures { SamplesLent (samples_answer modes.now guards.now symbols)
        samples.old result samples.new }
{
    host::sillurwy_samples_needed(modes, guards, symbols, samples)
}

// The guard search: whether something is found, then the guess. Where nothing is found, what was lent
// for the guess stays as it was.
#[unsafe(no_mangle)]
pub extern "C" fn sillurwy_detect_mode(
    samples: &[f32],
    modes: &[u8],
    guards: &[u8],
    scratch: &mut [f64],
    found: &mut u8,
    mode: &mut u8,
    guard: &mut u8,
    offset: &mut usize,
    metric: &mut f64,
    re: &mut f64,
    im: &mut f64,
) -> u8
    ensures { GuessLent (guess_answer samples.now modes.now guards.now (length scratch.old))
        found.old mode.old guard.old offset.old metric.old re.old im.old result
        found.new mode.new guard.new offset.new metric.new re.new im.new
        × scratch.new ≡ scratch_leaves (length samples.now) modes.now guards.now scratch.old }
{
    host::sillurwy_detect_mode(
        samples, modes, guards, scratch, found, mode, guard, offset, metric, re, im,
    )
}

// The soft value of the TMCC carriers between two spectra.
#[unsafe(no_mangle)]
pub extern "C" fn sillurwy_tmcc_soft(
    mode: u8,
    kinds: &[u8],
    spectra: &[f32],
    filter: u8,
    value: &mut f32,
) -> u8
    ensures { SoftLent (soft_answer (mode_from mode) kinds.now spectra.now filter)
        value.old result value.new }
{
    host::sillurwy_tmcc_soft(mode, kinds, spectra, filter, value)
}

// The ratio of one bin, from its pairs in symbol order.
#[unsafe(no_mangle)]
pub extern "C" fn sillurwy_bin_ratio(pairs: &[f32], ratio: &mut f32) -> u8
    ensures { BinRatioLent (bin_ratio_answer pairs.now) ratio.old result ratio.new }
{
    host::sillurwy_bin_ratio(pairs, ratio)
}

// The shift of spectra, and its score; their ratios stay in `ratios`.
#[unsafe(no_mangle)]
pub extern "C" fn sillurwy_integer_cfo(
    mode: u8,
    spectra: &[f32],
    bound: usize,
    ratios: &mut [f32],
    shift: &mut i64,
    score: &mut f32,
) -> u8
    ensures { ShiftLent (mode_from mode) spectra.now bound ratios.old shift.old score.old result
        ratios.new shift.new score.new }
{
    host::sillurwy_integer_cfo(mode, spectra, bound, ratios, shift, score)
}

// The kinds of the thirteen segments and their scores, by segment number; the ratios stay in `ratios`.
#[unsafe(no_mangle)]
pub extern "C" fn sillurwy_detect_kinds(
    mode: u8,
    spectra: &[f32],
    ratios: &mut [f32],
    kinds: &mut [u8; 13],
    scores: &mut [f32; 13],
) -> u8
    ensures { KindsLent (mode_from mode) spectra.now ratios.old kinds.old scores.old result
        ratios.new kinds.new scores.new }
{
    host::sillurwy_detect_kinds(mode, spectra, ratios, kinds, scores)
}

// The pilot phase: whether there are scattered pilots, then the phase and its share; the four counts and
// the lead. Without scattered pilots, what was lent for phase and share stays as it was.
#[unsafe(no_mangle)]
pub extern "C" fn sillurwy_detect_sp_phase(
    mode: u8,
    kinds: &[u8],
    spectra: &[f32],
    found: &mut u8,
    phase: &mut u8,
    share: &mut f32,
    counts: &mut [u32; 4],
    lead: &mut u32,
) -> u8
    ensures { PhaseLent (mode_from mode) kinds.now spectra.now
        found.old phase.old share.old counts.old lead.old result
        found.new phase.new share.new counts.new lead.new }
{
    host::sillurwy_detect_sp_phase(mode, kinds, spectra, found, phase, share, counts, lead)
}

// A start at which soft TMCC values spell a synchronising word: whether there is one, then the start and
// the word's code. Where there is none, what was lent for start and word stays as it was. Nothing is
// refused.
#[unsafe(no_mangle)]
pub extern "C" fn sillurwy_frame_start(
    soft: &[f32],
    found: &mut u8,
    start: &mut usize,
    word: &mut u8,
) -> u8
    ensures { StartLent soft.now start.old word.old result
        found.new start.new word.new }
{
    host::sillurwy_frame_start(soft, found, start, word)
}

// The channel at the points of the grid.
#[unsafe(no_mangle)]
pub extern "C" fn sillurwy_estimate_grid(
    mode: u8,
    phase: u8,
    kinds: &[u8],
    spectra: &[f32],
    index: usize,
    w: usize,
    grid: &mut [f32],
) -> u8
    ensures { GridEstimated (mode_from mode) kinds.now spectra.now (record { phase = phase; index = index; w = w })
        grid.old result grid.new }
{
    host::sillurwy_estimate_grid(mode, phase, kinds, spectra, index, w, grid)
}

// The f64 nearest to the root of x.
#[unsafe(no_mangle)]
pub extern "C" fn sillurwy_root(x: f64) -> f64
    ensures { result ≡ root_of x }
{
    host::sillurwy_root(x)
}

// The f32 nearest to x.
#[unsafe(no_mangle)]
pub extern "C" fn sillurwy_narrow(x: f64) -> f32
    ensures { result ≡ narrow_of x }
{
    host::sillurwy_narrow(x)
}

// The norm of an f32 pair.
#[unsafe(no_mangle)]
pub extern "C" fn sillurwy_norm32(re: f32, im: f32) -> f32
    ensures { result ≡ norm32 (pair re im) }
{
    host::sillurwy_norm32(re, im)
}

// The norm of an f64 pair.
#[unsafe(no_mangle)]
pub extern "C" fn sillurwy_norm64(re: f64, im: f64) -> f64
    ensures { result ≡ norm64 (pair re im) }
{
    host::sillurwy_norm64(re, im)
}

// The angle of the pair (re, im), in 1/65536 of a turn.
#[unsafe(no_mangle)]
pub extern "C" fn sillurwy_angle(re: f64, im: f64) -> i32
    ensures { result ≡ angle_of (pair re im) }
{
    host::sillurwy_angle(re, im)
}

// The fractional carrier offset that the summed correlation (re, im) of a guess tells, in carrier
// spacings.
#[unsafe(no_mangle)]
pub extern "C" fn sillurwy_cfo_frac(re: f64, im: f64) -> f64
    ensures { result ≡ cfo_frac (pair re im) }
{
    host::sillurwy_cfo_frac(re, im)
}
