// The stored calls of the functions of floats, made and compared. Each hands back its value in place of
// something lent, and refuses nothing: the code that is stored is 0. A new one has a function here and a
// line in `check_call`.
use replay::{Answers, Cut};

pub(crate) fn root(answers: &mut Answers, a: f64) -> Result<(), Cut> {
    answers.check(host::sillurwy_root(a))
}

pub(crate) fn narrow(answers: &mut Answers, a: f64) -> Result<(), Cut> {
    answers.check(host::sillurwy_narrow(a))
}

pub(crate) fn norm32(answers: &mut Answers, floats: &[f32]) -> Result<(), Cut> {
    let [a, b, ..] = floats else {
        return Err(Cut);
    };
    answers.check(host::sillurwy_norm32(*a, *b))
}

pub(crate) fn norm64(answers: &mut Answers, a: f64, b: f64) -> Result<(), Cut> {
    answers.check(host::sillurwy_norm64(a, b))
}

pub(crate) fn angle(answers: &mut Answers, a: f64, b: f64) -> Result<(), Cut> {
    answers.check(i64::from(host::sillurwy_angle(a, b)))
}

pub(crate) fn cfo_frac(answers: &mut Answers, a: f64, b: f64) -> Result<(), Cut> {
    answers.check(host::sillurwy_cfo_frac(a, b))
}
