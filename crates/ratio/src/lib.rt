// The ratio of each bin over spectra (acquire.rs of isdb-rs, `continual_metric`), and of one bin from its
// pairs alone. A bin is finished over all spectra before the next is taken: the pairs of some bins are
// copied so that each bin's lie one behind another, and each ratio is that of one bin's pairs.
#![tactic(auto)]

ghost use Rattle.std.specs.Prelude.{◌≡◌, ◌+◌, ◌*◌, ◌<◌, ◌≤◌, length};
ghost use Rattle.std.proofs.lemmas.List.Edits.{sets};
ghost use Rattle.lists.specs.Lists.{up_to};
ghost use Rattle.params.specs.Params.{code_of};
ghost use Rattle.complex.specs.Complex.{of32, norm32};
ghost use Rattle.spectra.specs.Spectra.{column, bin_pairs};
ghost use Rattle.ratio.specs.Ratio.{guarded, ratio_of, bin_ratios, metric_code, MetricTaken, BinRatioTold};
ghost use Rattle.ratio.specs.Codes.{Accepted};
ghost use Rattle.ratio.specs.Inner.{Started, Stepped, TermsPut, TermsAdded, SummedTo, Summed};
ghost use Rattle.ratio.specs.Inner.{Spreadable, Spread, Gatherable, Gathered, InBlock, Writable};

use complex::C32;
use params::Refusal;

// The sums of a bin: of the squares of its products, and of their squared sizes.
#[derive(Clone, Copy)]
pub struct BinSums {
    pub num: C32,
    pub den: f32,
}

impl BinSums {
    pub fn zero() -> BinSums
        ensures { Started result }
    {
        BinSums {
            num: C32::new(0.0, 0.0),
            den: 0.0,
        }
    }

    // A symbol more: its value x, and y of the symbol before.
    pub fn step(self, x: C32, y: C32) -> BinSums
        ensures { Stepped self (of32 x) (of32 y) result }
    {
        let p = x * y.conj();
        BinSums {
            num: self.num + p * p,
            den: self.den + p.norm_sqr(),
        }
    }

    // The squares and squared sizes of some products more, in their order.
    fn add_terms(self, squares: &[f32], sizes: &[f32]) -> BinSums
        requires { 2 * length sizes.now ≤ length squares.now }
        ensures { TermsAdded self squares.now sizes.now (length sizes.now) result }
    {
        let mut num = self.num;
        let mut den = self.den;
        for (i, size) in sizes.iter().enumerate() {
            num = num + spectra::pair_at(squares, i);
            den = den + *size;
        }
        BinSums { num, den }
    }

    // |num| / den, or 0.0 where there is no energy.
    pub fn ratio(self) -> f32
        ensures { result ≡ guarded (norm32 (of32 self.num)) self.den }
    {
        if self.den > 0.0 {
            self.num.norm() / self.den
        } else {
            0.0
        }
    }
}

// Stores the squares and the squared sizes of as many products as there is room for, each of a pair and the
// one behind it. No product waits for another, so the compiler works on four at once; sums would wait.
fn put_terms(pairs: &[f32], squares: &mut [f32], sizes: &mut [f32])
    requires { (2 * (length sizes.old + 1) ≤ length pairs.now) × (2 * length sizes.old ≤ length squares.old) }
    ensures { TermsPut pairs.now (length sizes.old) squares.new sizes.new }
{
    for (i, size) in sizes.iter_mut().enumerate() {
        let y = spectra::pair_at(pairs, i);
        let x = spectra::pair_at(pairs, i + 1);
        let p = x * y.conj();
        spectra::put_pair(squares, i, p * p);
        *size = p.norm_sqr();
    }
}

// The sums of the first n products: sixteen are worked out, and then added up in their order. Two small
// arrays have room for them; with more, in a trial, nothing was gained.
fn front_sums(pairs: &[f32], n: usize) -> BinSums
    requires { 2 * (n + 1) ≤ length pairs.now }
    ensures { SummedTo pairs.now n result }
{
    let mut squares = [0.0f32; 32];
    let mut sizes = [0.0f32; 16];
    let mut sums = BinSums::zero();
    for from in (0..n).step_by(16) {
        let m = (n - from).min(16);
        put_terms(&pairs[2 * from..], &mut squares[..2 * m], &mut sizes[..m]);
        sums = sums.add_terms(&squares[..2 * m], &sizes[..m]);
    }
    sums
}

// The sums of all products of a bin's pairs. Up to three that are left over from the fours are added one
// by one. With these in the arrays too, shift and kinds of 8 spectra took two thirds to four fifths longer
// (docs/DECISIONS.md), and no operation may take longer than before.
fn bin_sums(pairs: &[f32]) -> BinSums
    requires { 2 ≤ length pairs.now }
    ensures { Summed (bin_pairs 1 pairs.now 0) result }
{
    let n = pairs.len() / 2 - 1;
    let front = n / 4 * 4;
    let mut sums = front_sums(pairs, front);
    for k in front..n {
        let y = spectra::pair_at(pairs, k);
        let x = spectra::pair_at(pairs, k + 1);
        sums = sums.step(x, y);
    }
    sums
}

// The ratio of one bin, from its pairs alone in symbol order.
//
// Refused by 5 for an odd length or over 1,024 pairs, 6 for none: as spectra of one bin are.
pub fn bin_ratio(pairs: &[f32]) -> Result<f32, Refusal>
    ensures { BinRatioTold pairs.now result }
{
    spectra::refusal(1, pairs.len())?;
    Ok(bin_sums(pairs).ratio())
}

// What refuses `floats` floats as spectra of `len` pairs, with room for `room` ratios lent: 5 unless
// whole spectra, at most 1,024, 6 if none, 7 unless `len` ratios.
pub fn refusal(len: usize, floats: usize, room: usize) -> Result<(), Refusal>
    ensures { code_of result ≡ metric_code len floats room 0 }
{
    spectra::refusal(len, floats)?;
    if room != len {
        return Err(Refusal::WrongLength);
    }
    Ok(())
}

// Neighbouring bins in the copy: `width` of them from bin `first` on, each of `count` pairs one behind
// another, and `slot` pairs from one bin's first pair to the next bin's.
// The copy is lent beside it: two functions write it and two read it, so one struct of both is no plainer.
#[derive(Clone, Copy)]
pub struct BinBlock {
    pub first: usize,
    pub width: usize,
    pub count: usize,
    pub slot: usize,
}

// Copies the pairs of two symbols, which begin at `at` and `next`, to the pairs t and t + 1 of the
// slots. They come to lie side by side, so that the compiler makes one store of two; one index serves
// both symbols, since each is a slice of its own. The spectra and where two of them begin: two slices are no
// plainer, since the contract speaks of the spectra that both are cut from.
fn spread_two(spectra: &[f32], at: usize, next: usize, bins: BinBlock, t: usize, block: &mut [f32])
    requires { Spreadable at next bins.width bins.slot t (length spectra.now) (length block.old) }
    ensures { Spread spectra.now at next bins.width bins.slot t block.old block.new }
{
    let one = &spectra[2 * at..];
    let two = &spectra[2 * next..];
    for i in 0..bins.width {
        let to = i * bins.slot + t;
        let x = spectra::pair_at(one, i);
        let y = spectra::pair_at(two, i);
        spectra::put_pair(block, to, x);
        spectra::put_pair(block, to + 1, y);
    }
}

// Copies the pairs of some bins of spectra of `len` pairs. Eight pairs lie in a line of the cache: so a
// line of the spectra is fetched once or, where two copies share it, twice, and not for each of its bins.
#[tactic(auto, using(crate::proofs::Slots::gather_last))]
fn gather(spectra: &[f32], len: usize, bins: BinBlock, block: &mut [f32])
    requires { Gatherable len bins (length spectra.now) (length block.old) }
    ensures { Gathered spectra.now len bins bins.count block.new }
{
    for t in (0..bins.count).step_by(2) {
        // A last symbol that stands alone is copied twice: what follows it in the slot is not read.
        let next = if t + 1 < bins.count { t + 1 } else { t };
        spread_two(
            spectra,
            bins.first + t * len,
            bins.first + next * len,
            bins,
            t,
            block,
        );
    }
}

// The ratio of bin i of the copy. Nothing is refused, since a slot has 1 to 1,024 pairs of its bin.
fn ratio_in(block: &[f32], bins: BinBlock, i: usize) -> f32
    requires { InBlock bins i (length block.now) }
    ensures { result ≡ ratio_of (column block.now 1 (i * bins.slot) bins.count) }
{
    let from = 2 * (i * bins.slot);
    let to = from + 2 * bins.count;
    bin_ratio(&block[from..to]).unwrap_or(0.0)
}

// Stores the ratios of the bins of the copy, each at its bin.
fn write_block(block: &[f32], bins: BinBlock, out: &mut [f32])
    requires { Writable bins (length block.now) (length out.old) }
    ensures { out.new
        ≡ sets out.old bins.first (up_to (λ i. ratio_of (column block.now 1 (i * bins.slot) bins.count)) bins.width) }
{
    let end = bins.first + bins.width;
    for (i, ratio) in out[bins.first..end].iter_mut().enumerate() {
        *ratio = ratio_in(block, bins, i);
    }
}

// The ratios of an accepted call. A slot has a line of the cache more than the bin's pairs, since slots
// that lie a power of two apart share too few of the cache's places; two lines of bins are copied at a
// time where the block's 8,256 pairs have room.
pub fn write_ratios(spectra: &[f32], len: usize, out: &mut [f32])
    requires { Accepted len (length spectra.now) (length out.old) 0 }
    ensures { out.new ≡ bin_ratios len spectra.now }
{
    let count = spectra.len() / (2 * len);
    let slot = count + 8;
    let most = (8256 / slot).min(16);
    let mut block = [0.0f32; 16512];
    for first in (0..len).step_by(most) {
        let width = (len - first).min(most);
        let bins = BinBlock {
            first,
            width,
            count,
            slot,
        };
        gather(spectra, len, bins, &mut block);
        write_block(&block, bins, out);
    }
}

// Every bin's ratio, of spectra of `len` pairs, written to `out`.
//
// Refused by 5 unless whole spectra, at most 1,024, 6 if none, 7 unless `len` ratios.
pub fn continual_metric(spectra: &[f32], len: usize, out: &mut [f32]) -> Result<(), Refusal>
    ensures { MetricTaken len spectra.now out.old (code_of result) out.new }
{
    refusal(len, spectra.len(), out.len())?;
    write_ratios(spectra, len, out);
    Ok(())
}
