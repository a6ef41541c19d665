// Text stored in a buffer that the caller lends: each function takes the index to start at and gives
// the index behind what it stored.
// The index stays beside the buffer: each contract over a cursor that held both would also have to say
// that it still holds the same buffer, by its ghost name.
// `n < 10000` stands where a number is put: a type for such numbers is no plainer, since each caller would make
// one of its number only for the call.
// Digits are put by hand: `write!` to a lent slice, by std's Cursor, says nothing of the bytes.
#![tactic(auto)]

ghost use Rattle.std.specs.Prelude.{[], ◌∷◌, ◌++◌, ◌<◌, ◌≤◌, ◌+◌, ◌/◌, length};
ghost use Rattle.text.specs.Decimal.{decimal};
ghost use Rattle.text.specs.Digits.{pair, few};
ghost use Rattle.text.specs.Put.{Put, PutCut};

// One byte of text.
pub fn put_byte(out: &mut [u8], at: usize, b: u8) -> usize
    requires { at < length out.old }
    ensures { Put out.old at (b ∷ []) result out.new }
{
    out[at] = b;
    at + 1
}

// Two digits.
fn put_pair(out: &mut [u8], at: usize, n: usize) -> usize
    requires { (at + 2 ≤ length out.old) × (n < 100) }
    ensures { Put out.old at (pair n) result out.new }
{
    out[at] = (48 + n / 10) as u8;
    out[at + 1] = (48 + n % 10) as u8;
    at + 2
}

// A number of one or two digits.
fn put_few(out: &mut [u8], at: usize, n: usize) -> usize
    requires { (at + 2 ≤ length out.old) × (n < 100) }
    ensures put { Put out.old at (few n) result out.new }
    ensures upper_bound { (result ≤ at + 2) × (result ≤ at + 1 + n / 10) }
{
    if n < 10 {
        return put_byte(out, at, (48 + n) as u8);
    }
    put_pair(out, at, n)
}

// A number in decimal digits: four at most, and at most 1 + n / 10. A line's room is counted from
// these two bounds.
#[tactic(auto, using(crate::specs::Laws::then, crate::proofs::Numbered::decimal_more), unfolding(crate::specs::Decimal::decimal))]
pub fn put_decimal(out: &mut [u8], at: usize, n: usize) -> usize
    requires { (at + 4 ≤ length out.old) × (n < 10000) }
    ensures put { Put out.old at (decimal n) result out.new }
    ensures upper_bound { (result ≤ at + 4) × (result ≤ at + 1 + n / 10) }
{
    if n < 10 {
        return put_byte(out, at, (48 + n) as u8);
    }
    if n < 100 {
        return put_pair(out, at, n);
    }
    let tens = put_few(out, at, n / 100);
    put_pair(out, tens, n % 100)
}

// A number, and the byte behind it.
pub fn put_number(out: &mut [u8], at: usize, n: usize, behind: u8) -> usize
    requires { (at + 5 ≤ length out.old) × (n < 10000) }
    ensures put { Put out.old at (decimal n ++ (behind ∷ [])) result out.new }
    ensures upper_bound { (result ≤ at + 5) × (result ≤ at + 2 + n / 10) }
{
    let end = put_decimal(out, at, n);
    put_byte(out, end, behind)
}

// Text that is stored as it is.
#[tactic(auto, using(crate::proofs::Numbered::put_copied))]
pub fn put_text(out: &mut [u8], at: usize, text: &[u8]) -> usize
    requires { at + length text.now ≤ length out.old }
    ensures { Put out.old at text.now result out.new }
{
    let end = at + text.len();
    out[at..end].copy_from_slice(text);
    end
}

// What a text meets whose end has no room.
#[derive(Clone, Copy, Debug, PartialEq, Eq)]
pub struct Cut;

// A text, stored as far as the buffer goes: the index behind all of it, or that its end is cut off.
pub fn put_cut(out: &mut [u8], at: usize, text: &[u8]) -> Result<usize, Cut>
    requires { at ≤ length out.old }
    ensures { PutCut out.old at text.now result out.new }
{
    let room = out.len() - at;
    if room < text.len() {
        put_text(out, at, &text[..room]);
        return Err(Cut);
    }
    Ok(put_text(out, at, text))
}
