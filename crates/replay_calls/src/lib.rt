// Reads the rest of a stored record (oracle/README.md, "The stored answers", has the form) and hands it
// to its operation: the module of its part makes the call and compares what comes of it. The program
// that reads record after record stands apart: a new operation does not touch it.
//
// A new operation has its number in `replay_head`, a function in the module of its part, and a line here.
#![tactic(auto)]

mod acquisition;
mod floats;
mod grid;
mod layout;

use replay::{Answers, Cut, Size};
use replay_head::{Call, HEAD, Operation, size_at};
use std::num::f64_from_bits_with_nan;

// The lists that follow the head: two of bytes (kinds, or modes and guards), and the floats, which have
// one byte or four each. Behind them stand the wide numbers, which only the functions of floats have.
#[derive(Clone, Copy)]
struct Lists<'a> {
    bytes: &'a [u8],
    more_bytes: &'a [u8],
    floats: &'a [f32],
    a: f64,
    b: f64,
}

// Reads the rest of a record, whose head was read: makes its call, and compares what comes of it.
pub fn check_record(answers: &mut Answers, head: &[u8; HEAD]) -> Result<(), Cut> {
    let mut byte_room = [0u8; 16];
    let bytes = answers.read_part(&mut byte_room, size_at(head, 14))?;
    let mut more_byte_room = [0u8; 16];
    let more_bytes = answers.read_part(&mut more_byte_room, size_at(head, 16))?;
    let mut float_room = [0.0f32; 22468];
    let floats = float_room.get_mut(..size_at(head, 18)).ok_or(Cut)?;
    answers.read_floats(floats, Size::from(head[20]))?;
    let (a, b) = answers.read_longs(usize::from(head[21]))?;
    let lists = Lists {
        bytes,
        more_bytes,
        floats,
        a: f64_from_bits_with_nan(a),
        b: f64_from_bits_with_nan(b),
    };
    check_call(answers, head, lists)
}

// The code of a function that refuses nothing is 0: a stored one that is not is a difference.
fn none_refused(answers: &mut Answers, code: u8) -> &mut Answers {
    answers.tally.expect(code == 0);
    answers
}

// The functions of floats are lent nothing, so what a head says of that has no meaning there. Answers and
// call go through all the others together: a struct of both would be made for that alone.
fn check_call(answers: &mut Answers, head: &[u8; HEAD], lists: Lists<'_>) -> Result<(), Cut> {
    let code = head[1];
    let call = Call::of(head).within_room();
    match Operation::try_from(head[0])? {
        Operation::CarrierBin => layout::carrier_bin(answers, call?),
        Operation::RoleMap => layout::role_map(answers, call?, lists.bytes),
        Operation::SignMap => layout::sign_map(answers, call?),
        Operation::DataList => layout::data_list(answers, call?, lists.bytes),
        Operation::ContinualList => layout::continual_list(answers, call?, lists.bytes),
        Operation::SamplesNeeded => {
            acquisition::samples_needed(answers, call?, lists.bytes, lists.more_bytes)
        }
        Operation::DetectMode => {
            acquisition::detect_mode(answers, call?, lists.floats, lists.bytes, lists.more_bytes)
        }
        Operation::IntegerCfo => acquisition::integer_cfo(answers, call?, lists.floats),
        Operation::DetectKinds => acquisition::detect_kinds(answers, call?, lists.floats),
        Operation::TmccSoft => acquisition::tmcc_soft(answers, call?, lists.bytes, lists.floats),
        Operation::DetectSpPhase => {
            acquisition::detect_sp_phase(answers, call?, lists.bytes, lists.floats)
        }
        Operation::EstimateGrid => grid::estimate_grid(answers, call?, lists.bytes, lists.floats),
        Operation::Root => floats::root(none_refused(answers, code), lists.a),
        Operation::Narrow => floats::narrow(none_refused(answers, code), lists.a),
        Operation::Norm32 => floats::norm32(none_refused(answers, code), lists.floats),
        Operation::Norm64 => floats::norm64(none_refused(answers, code), lists.a, lists.b),
        Operation::FrameStart => acquisition::frame_start(answers, call?, lists.floats),
        Operation::BinRatio => acquisition::bin_ratio(answers, call?, lists.floats),
        Operation::CarrierRole => layout::carrier_role(answers, call?, lists.bytes),
        Operation::Angle => floats::angle(none_refused(answers, code), lists.a, lists.b),
        Operation::CfoFrac => floats::cfo_frac(none_refused(answers, code), lists.a, lists.b),
    }
}
