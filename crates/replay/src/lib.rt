// What the replay programs share: they read stored answers from standard input, part by part,
// compare each entry with what the proved operations answer, and count how many were compared and how
// many differ.
#![tactic(auto)]

ghost use Rattle.std.specs.Prelude.{◌+◌, ◌-◌, ◌*◌, ◌<◌, ◌≤◌, ◌≡◌, ℕ, cond, is_ok, length, get_or, map, IfOk};
ghost use Rattle.std.specs.Int.{w64, cast_unsigned};
ghost use Rattle.replay.specs.Answers.{number_at, word_at, long_at, size_bytes, size_told, number_of, bits32, bits64, place_of};
ghost use Rattle.replay.specs.Answers.{owed_at, Holds, Compared, Checked};
ghost use Rattle.tally.specs.Tally.{Counted};

use std::io;
use std::io::{Read, Stdin};
use std::num::{f32_from_bits_with_nan, f32_to_bits_with_nan, f64_to_bits_with_nan};
use tally::Tally;

// The input ends, or makes no sense: nothing behind can be read.
#[derive(Clone, Copy, Debug, PartialEq, Eq)]
pub struct Cut;

impl From<io::Error> for Cut {
    fn from(_: io::Error) -> Cut {
        Cut
    }
}

// How many bytes a stored number has.
#[derive(Clone, Copy, Debug, PartialEq, Eq)]
pub enum Size {
    One = 1,
    Four = 4,
    Eight = 8,
}

impl Size {
    fn bytes(self) -> usize
        ensures { result ≡ size_bytes self }
    {
        self as usize
    }
}

// As the head of a stored call tells it: eight bytes where it is neither one nor four.
impl From<u8> for Size {
    ghost from_gives = { λ bytes size. size ≡ size_told bytes };

    fn from(bytes: u8) -> Size {
        match bytes {
            1 => Size::One,
            4 => Size::Four,
            _ => Size::Eight,
        }
    }
}

// An entry of a list that a call is lent, or a number that it hands back: how it is stored.
pub trait Entry: Copy {
    ghost bits_of: { Self → ℕ };

    const SIZE: Size;

    // What every entry holds before a call.
    const HELD: Self;

    fn bits(self) -> u64
        ensures { result ≡ bits_of self };
}

impl Entry for u8 {
    ghost bits_of = { λ x. x };

    const SIZE: Size = Size::One;

    const HELD: u8 = 77;

    fn bits(self) -> u64 {
        u64::from(self)
    }
}

impl Entry for u32 {
    ghost bits_of = { λ x. x };

    const SIZE: Size = Size::Four;

    const HELD: u32 = 77;

    fn bits(self) -> u64 {
        u64::from(self)
    }
}

impl Entry for usize {
    ghost bits_of = { λ x. x };

    const SIZE: Size = Size::Four;

    const HELD: usize = 77;

    fn bits(self) -> u64 {
        self as u64
    }
}

impl Entry for i64 {
    ghost bits_of = { cast_unsigned w64 };

    const SIZE: Size = Size::Eight;

    const HELD: i64 = 77;

    fn bits(self) -> u64 {
        self.cast_unsigned()
    }
}

// Every NaN has the same bits.
#[tactic(auto, using(crate::specs::Laws::same_bits32))]
impl Entry for f32 {
    ghost bits_of = { bits32 };

    const SIZE: Size = Size::Four;

    const HELD: f32 = 77.0;

    fn bits(self) -> u64 {
        u64::from(f32_to_bits_with_nan(self))
    }
}

#[tactic(auto, using(crate::specs::Laws::same_bits64))]
impl Entry for f64 {
    ghost bits_of = { bits64 };

    const SIZE: Size = Size::Eight;

    const HELD: f64 = 77.0;

    fn bits(self) -> u64 {
        f64_to_bits_with_nan(self)
    }
}

// The number of two bytes, the low one first, that begins at an index.
pub fn number_at(bytes: &[u8], at: usize) -> u16
    requires { at + 2 ≤ length bytes.now }
    ensures { result ≡ number_at bytes.now at }
{
    u16::from_le_bytes([bytes[at], bytes[at + 1]])
}

// The number of four bytes that begins at an index.
fn word_at(bytes: &[u8], at: usize) -> u32
    requires { at + 4 ≤ length bytes.now }
    ensures { result ≡ word_at bytes.now at }
{
    u32::from_le_bytes([bytes[at], bytes[at + 1], bytes[at + 2], bytes[at + 3]])
}

// The number of eight bytes, from two of four: to name all eight entries by their indices is no plainer.
fn long_at(bytes: &[u8], at: usize) -> u64
    requires { at + 8 ≤ length bytes.now }
    ensures { result ≡ long_at bytes.now at }
{
    u64::from(word_at(bytes, at + 4)) * 4294967296 + u64::from(word_at(bytes, at))
}

// The number at a place of numbers that have so many bytes each.
fn number_of(bytes: &[u8], size: Size, place: usize) -> u64
    requires { 8 * place + 8 ≤ length bytes.now }
    ensures { result ≡ number_of bytes.now size place }
{
    match size {
        Size::One => u64::from(bytes[place]),
        Size::Four => u64::from(word_at(bytes, 4 * place)),
        Size::Eight => long_at(bytes, 8 * place),
    }
}

// What a stored answer owes of something that was lent: entries of so many bytes, of which the first
// ones are written; how many of those are stored, since of entries that are all alike one is; and what
// every entry was before the call, which all others must still be.
// The stored numbers are read from the whole room that they lie in: the part of it that was read is no
// plainer, since its length would be another for each size of a number.
#[derive(Clone, Copy)]
struct Owed {
    size: Size,
    before: u64,
    written: usize,
    kept: usize,
}

impl Owed {
    // The place of an entry among the stored ones.
    fn place(self, i: usize) -> usize
        ensures { (result ≡ place_of self.kept i) × (result ≤ self.kept - 1) }
    {
        if i < self.kept { i } else { 0 }
    }

    // What an entry must be.
    fn entry(self, stored: &[u8], i: usize) -> u64
        requires { Holds stored.now self }
        ensures { result ≡ owed_at stored.now self i }
    {
        if i < self.written {
            number_of(stored, self.size, self.place(i))
        } else {
            self.before
        }
    }
}

// Compares every entry that an operation was lent with what it must be.
fn compare<T: Entry>(got: &[T], stored: &[u8], owed: Owed, tally: Tally) -> Tally
    requires { Holds stored.now owed }
    ensures { Compared (λ i. get_or (map T.bits_of got.now) i 0) stored.now owed (length got.now) tally result }
{
    let mut t = tally;
    for (i, x) in got.iter().enumerate() {
        t.entry(x.bits() == owed.entry(stored, i));
    }
    t
}

// Compares a number with the one that it must be.
fn compare_one<T: Entry>(got: T, stored: &[u8], owed: Owed, tally: Tally) -> Tally
    requires { Holds stored.now owed }
    ensures { Compared (λ i. T.bits_of got) stored.now owed 1 tally result }
{
    let mut t = tally;
    t.entry(got.bits() == owed.entry(stored, 0));
    t
}

// How many of so many written entries are stored: one where they are all alike. Another flag makes no
// sense.
fn kept_of(written: usize, alike: u8) -> Result<usize, Cut> {
    match alike {
        0 => Ok(written),
        1 => Ok(written.min(1)),
        _ => Err(Cut),
    }
}

// A float as it is stored: in one byte, which is 128 more, or by its bits.
fn float_at(bytes: &[u8], size: Size, place: usize) -> f32
    requires { 4 * place + 4 ≤ length bytes.now }
{
    match size {
        Size::One => bytes[place] as f32 - 128.0,
        _ => f32_from_bits_with_nan(word_at(bytes, 4 * place)),
    }
}

// Writes the floats that are stored.
fn put_floats(bytes: &[u8], size: Size, out: &mut [f32])
    requires { 4 * length out.old ≤ length bytes.now }
{
    for (place, x) in out.iter_mut().enumerate() {
        *x = float_at(bytes, size, place);
    }
}

// The stored answers, which are read from the input part by part, and the count of what was compared
// with them.
#[derive(Drop)]
pub struct Answers {
    input: Stdin,
    pub tally: Tally,
}

impl Answers {
    pub fn new(input: Stdin) -> Answers
        ensures { (result.tally.compared ≡ 0) × (result.tally.differ ≡ 0) }
    {
        Answers {
            input,
            tally: Tally::new(),
        }
    }

    // The count in the end: an input that was cut is one difference more.
    pub fn counted(self, read: Result<(), Cut>) -> Tally
        ensures { Counted self.tally 0 (cond (is_ok read) 0 1) result }
    {
        let mut tally = self.tally;
        tally.expect(read.is_ok());
        tally
    }

    // Reads the next n bytes to the start of room, where they find room.
    pub fn read_part<'a>(&mut self, room: &'a mut [u8], n: usize) -> Result<&'a [u8], Cut>
        ensures kept { self.new.tally ≡ self.old.tally }
        ensures part { IfOk result (λ part. length part.now ≡ n) }
    {
        let part = room.get_mut(..n).ok_or(Cut)?;
        self.input.read_exact(part)?;
        Ok(part)
    }

    // Fills room where something may begin: whether there was anything at all.
    pub fn read_head(&mut self, room: &mut [u8]) -> Result<bool, Cut>
        ensures { self.new.tally ≡ self.old.tally }
    {
        match self.input.read(room) {
            Ok(0) | Err(_) => Ok(false),
            Ok(n) => {
                self.input.read_exact(&mut room[n..])?;
                Ok(true)
            }
        }
    }

    pub fn read_byte(&mut self) -> Result<u8, Cut>
        ensures { self.new.tally ≡ self.old.tally }
    {
        let mut room = [0u8; 1];
        self.input.read_exact(&mut room)?;
        Ok(room[0])
    }

    // Reads floats of so many bytes each, where they find room.
    pub fn read_floats(&mut self, out: &mut [f32], size: Size) -> Result<(), Cut>
        ensures { self.new.tally ≡ self.old.tally }
    {
        let mut room = [0u8; 89872];
        if 22468 < out.len() {
            return Err(Cut);
        }
        self.read_part(&mut room, size.bytes() * out.len())?;
        put_floats(&room, size, out);
        Ok(())
    }

    // Reads n numbers of eight bytes, which are at most two. One that is not there is 0: no plainer as an
    // Option, since a call that has no number is made with 0, so the caller would put it there.
    pub fn read_longs(&mut self, n: usize) -> Result<(u64, u64), Cut>
        ensures { self.new.tally ≡ self.old.tally }
    {
        let mut room = [0u8; 16];
        if 2 < n {
            return Err(Cut);
        }
        self.read_part(&mut room, 8 * n)?;
        Ok((long_at(&room, 0), long_at(&room, 8)))
    }

    // Reads what a stored answer owes of `len` entries, and the stored ones to the start of room.
    fn read_owed<T: Entry>(&mut self, room: &mut [u8], len: usize) -> Result<Owed, Cut>
        ensures kept { self.new.tally ≡ self.old.tally }
        ensures owed { IfOk result (λ owed. (owed.kept ≤ 8192) × (owed.written ≤ len)) }
    {
        let mut head = [0u8; 3];
        self.input.read_exact(&mut head)?;
        let written = usize::from(number_at(&head, 0));
        let kept = kept_of(written, head[2])?;
        if len < written || 8192 < kept {
            return Err(Cut);
        }
        self.read_part(room, T::SIZE.bytes() * kept)?;
        Ok(Owed {
            size: T::SIZE,
            before: T::HELD.bits(),
            written,
            kept,
        })
    }

    // Reads a stored answer of a list, and compares each entry with it.
    pub fn check_list<T: Entry>(&mut self, got: &[T]) -> Result<(), Cut>
        ensures { Checked (λ i. get_or (map T.bits_of got.now) i 0) (length got.now) self.old.tally result self.new.tally }
    {
        let mut room = [0u8; 65536];
        let owed = self.read_owed::<T>(&mut room, got.len())?;
        self.tally = compare(got, &room, owed, self.tally);
        Ok(())
    }

    // The same of a single number. No list of one entry, since an array of `T` would ask each caller that
    // its size fits in memory.
    pub fn check<T: Entry>(&mut self, got: T) -> Result<(), Cut>
        ensures { Checked (λ i. T.bits_of got) 1 self.old.tally result self.new.tally }
    {
        let mut room = [0u8; 65536];
        let owed = self.read_owed::<T>(&mut room, 1)?;
        self.tally = compare_one(got, &room, owed, self.tally);
        Ok(())
    }
}
