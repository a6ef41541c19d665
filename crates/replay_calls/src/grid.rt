// The stored calls of the grid, made and compared: what the C library's function returns, and every
// entry that was lent to be written. A new operation has a function here and a line in `check_call`.
use replay::{Answers, Cut, Entry};
use replay_head::{Call, ROOM};

pub(crate) fn estimate_grid(
    answers: &mut Answers,
    call: Call,
    kinds: &[u8],
    spectra: &[f32],
) -> Result<(), Cut> {
    let mut room = [f32::HELD; ROOM];
    let grid = call.lend(&mut room)?;
    let code = host::sillurwy_estimate_grid(
        call.mode,
        call.choice,
        kinds,
        spectra,
        call.third,
        call.fourth,
        grid,
    );
    answers.tally.entry(code == call.code);
    answers.check_list(grid)
}
