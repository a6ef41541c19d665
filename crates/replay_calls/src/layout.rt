// The stored calls of the layout, made and compared: what the C library's function returns, and every
// entry that was lent to be written. A new operation has a function here and a line in `check_call`.
use replay::{Answers, Cut, Entry};
use replay_head::{Call, ROOM};

pub(crate) fn carrier_bin(answers: &mut Answers, call: Call) -> Result<(), Cut> {
    let mut bin = usize::HELD;
    let code = host::sillurwy_carrier_bin(call.mode, call.second, &mut bin);
    answers.tally.entry(code == call.code);
    answers.check(bin)
}

pub(crate) fn role_map(answers: &mut Answers, call: Call, kinds: &[u8]) -> Result<(), Cut> {
    let mut room = [u8::HELD; ROOM];
    let out = call.lend(&mut room)?;
    let code = host::sillurwy_role_map(call.mode, call.choice, kinds, out);
    answers.tally.entry(code == call.code);
    answers.check_list(out)
}

pub(crate) fn sign_map(answers: &mut Answers, call: Call) -> Result<(), Cut> {
    let mut room = [u8::HELD; ROOM];
    let out = call.lend(&mut room)?;
    let code = host::sillurwy_sign_map(call.mode, out);
    answers.tally.entry(code == call.code);
    answers.check_list(out)
}

pub(crate) fn data_list(answers: &mut Answers, call: Call, kinds: &[u8]) -> Result<(), Cut> {
    let mut room = [u32::HELD; ROOM];
    let out = call.lend(&mut room)?;
    let code = host::sillurwy_data_list(call.mode, call.choice, kinds, out);
    answers.tally.entry(code == call.code);
    answers.check_list(out)
}

pub(crate) fn continual_list(answers: &mut Answers, call: Call, kinds: &[u8]) -> Result<(), Cut> {
    let mut room = [u32::HELD; ROOM];
    let out = call.lend(&mut room)?;
    let mut count = usize::HELD;
    let code = host::sillurwy_continual_list(call.mode, kinds, out, &mut count);
    answers.tally.entry(code == call.code);
    answers.check_list(out)?;
    answers.check(count)
}

pub(crate) fn carrier_role(answers: &mut Answers, call: Call, kinds: &[u8]) -> Result<(), Cut> {
    let mut role = u8::HELD;
    let code = host::sillurwy_carrier_role(call.mode, call.choice, kinds, call.third, &mut role);
    answers.tally.entry(code == call.code);
    answers.check(role)
}
