// The stored calls of acquisition, made and compared: what the C library's function returns, and every
// entry that was lent to be written. A new operation has a function here and a line in `check_call`.
use replay::{Answers, Cut, Entry};
use replay_head::{Call, ROOM};

pub(crate) fn samples_needed(
    answers: &mut Answers,
    call: Call,
    modes: &[u8],
    guards: &[u8],
) -> Result<(), Cut> {
    let mut samples = usize::HELD;
    let code = host::sillurwy_samples_needed(modes, guards, call.first, &mut samples);
    answers.tally.entry(code == call.code);
    answers.check(samples)
}

// The scratch is handed back cleared.
pub(crate) fn detect_mode(
    answers: &mut Answers,
    call: Call,
    samples: &[f32],
    modes: &[u8],
    guards: &[u8],
) -> Result<(), Cut> {
    let mut room = [f64::HELD; ROOM];
    let scratch = call.lend(&mut room)?;
    let mut found = u8::HELD;
    let mut mode = u8::HELD;
    let mut guard = u8::HELD;
    let mut offset = usize::HELD;
    let mut metric = f64::HELD;
    let mut re = f64::HELD;
    let mut im = f64::HELD;
    let code = host::sillurwy_detect_mode(
        samples,
        modes,
        guards,
        scratch,
        &mut found,
        &mut mode,
        &mut guard,
        &mut offset,
        &mut metric,
        &mut re,
        &mut im,
    );
    answers.tally.entry(code == call.code);
    answers.check_list(scratch)?;
    answers.check(found)?;
    answers.check(mode)?;
    answers.check(guard)?;
    answers.check(offset)?;
    answers.check(metric)?;
    answers.check(re)?;
    answers.check(im)
}

pub(crate) fn integer_cfo(answers: &mut Answers, call: Call, spectra: &[f32]) -> Result<(), Cut> {
    let mut room = [f32::HELD; ROOM];
    let ratios = call.lend(&mut room)?;
    let mut shift = i64::HELD;
    let mut score = f32::HELD;
    let code = host::sillurwy_integer_cfo(
        call.mode,
        spectra,
        call.second,
        ratios,
        &mut shift,
        &mut score,
    );
    answers.tally.entry(code == call.code);
    answers.check_list(ratios)?;
    answers.check(shift)?;
    answers.check(score)
}

pub(crate) fn detect_kinds(answers: &mut Answers, call: Call, spectra: &[f32]) -> Result<(), Cut> {
    let mut room = [f32::HELD; ROOM];
    let ratios = call.lend(&mut room)?;
    let mut kinds = [u8::HELD; 13];
    let mut scores = [f32::HELD; 13];
    let code = host::sillurwy_detect_kinds(call.mode, spectra, ratios, &mut kinds, &mut scores);
    answers.tally.entry(code == call.code);
    answers.check_list(ratios)?;
    answers.check_list(&kinds)?;
    answers.check_list(&scores)
}

pub(crate) fn tmcc_soft(
    answers: &mut Answers,
    call: Call,
    kinds: &[u8],
    spectra: &[f32],
) -> Result<(), Cut> {
    let mut value = f32::HELD;
    let code = host::sillurwy_tmcc_soft(call.mode, kinds, spectra, call.choice, &mut value);
    answers.tally.entry(code == call.code);
    answers.check(value)
}

pub(crate) fn detect_sp_phase(
    answers: &mut Answers,
    call: Call,
    kinds: &[u8],
    spectra: &[f32],
) -> Result<(), Cut> {
    let mut found = u8::HELD;
    let mut phase = u8::HELD;
    let mut share = f32::HELD;
    let mut counts = [u32::HELD; 4];
    let mut lead = u32::HELD;
    let code = host::sillurwy_detect_sp_phase(
        call.mode,
        kinds,
        spectra,
        &mut found,
        &mut phase,
        &mut share,
        &mut counts,
        &mut lead,
    );
    answers.tally.entry(code == call.code);
    answers.check(found)?;
    answers.check(phase)?;
    answers.check(share)?;
    answers.check_list(&counts)?;
    answers.check(lead)
}

pub(crate) fn frame_start(answers: &mut Answers, call: Call, soft: &[f32]) -> Result<(), Cut> {
    let mut found = u8::HELD;
    let mut start = usize::HELD;
    let mut word = u8::HELD;
    let code = host::sillurwy_frame_start(soft, &mut found, &mut start, &mut word);
    answers.tally.entry(code == call.code);
    answers.check(found)?;
    answers.check(start)?;
    answers.check(word)
}

pub(crate) fn bin_ratio(answers: &mut Answers, call: Call, pairs: &[f32]) -> Result<(), Cut> {
    let mut ratio = f32::HELD;
    let code = host::sillurwy_bin_ratio(pairs, &mut ratio);
    answers.tally.entry(code == call.code);
    answers.check(ratio)
}
