// Lists of carriers that receivers walk: the data list of frame.rs's FrameLayout, and the continual
// list of rx/mod.rs (isdb-rs). Both are made from the band's roles: the data list in one walk, the
// continual list in one that counts and one for each of its three groups.
#![tactic(auto)]

ghost use Rattle.std.specs.Prelude.{◌≡◌, ◌<◌, ◌≤◌, ◌*◌, length, count_by};
ghost use Rattle.lists.specs.Lists.{range, joined, chosen};
ghost use Rattle.params.specs.Params.{mode_from, data_carriers_per_segment, code_of, kind_codes};
ghost use Rattle.frame.specs.Roles.{band_roles, wide, between};
ghost use Rattle.carrier_lists.specs.CarrierLists.{data_list, continual_in, stored_first};
ghost use Rattle.carrier_lists.specs.Operations.{DataList, ContinualListed};
ghost use Rattle.carrier_lists.specs.Inner.{Room, Collected, DataRoom, data_in, ContinualRoom, Continual};

use frame::{AC1, AC2, CP, DATA, FrameLayout, TMCC};
use ofdm::{BandCarrier, Segment};
use params::{Mode, Phase, Refusal};

// Stores, from index `at` of `out` on, the carriers whose role byte lies from low to high, where
// roles[i] is that of the i-th carrier from the first on. Hands back the index behind the last.
// Roles and `out` go together from here on, and a struct of both would be made for each call alone.
// Two bytes: a RangeInclusive in their place is no plainer, the contract has to say that it is not used up.
fn collect(roles: &[u8], low: u8, high: u8, first: BandCarrier, out: &mut [u32], at: usize) -> usize
    requires { Room roles.now low high first.0 out.old at }
    ensures { Collected roles.now low high first.0 out.old at result out.new }
{
    let lowest = first.0;
    let mut n = at; // counted by hand, since it is handed back: an iterator over `out` in its place is no plainer
    for (i, role) in roles.iter().enumerate() {
        if frame::is_between(low, high, *role) {
            out[n] = (lowest + i) as u32;
            n += 1;
        }
    }
    n
}

// How many role bytes lie from low to high.
fn count(roles: &[u8], low: u8, high: u8) -> usize
    ensures { result ≡ count_by (between low high) roles.now }
{
    roles
        .iter()
        .filter(|role| frame::is_between(low, high, **role))
        .count()
}

// Stores the data carriers of each segment, in segment-number order, of a band with these roles. `frame` and
// `prbs` go over the segments' carriers too: a function that gives the first of them and the one behind the last
// is no plainer than the two lines that work them out.
fn collect_data(mode: Mode, roles: &[u8], out: &mut [u32])
    requires { DataRoom mode roles.now out.old }
    ensures { out.new ≡ joined (data_in mode roles.now) (range 13) }
{
    let c = mode.carriers_per_segment();
    let mut at: usize = 0;
    for seg in 0..13 {
        let first = ofdm::first_carrier(mode, ofdm::segment_position(Segment { number: seg }));
        let from = first.0;
        let to = from + c;
        at = collect(&roles[from..to], DATA, DATA, first, out, at);
    }
}

// Stores TMCC carriers, AC carriers, CP carriers and the edge of a band with these roles.
fn store_continual(roles: &[u8], out: &mut [u32])
    requires { ContinualRoom roles.now out.old }
    ensures { out.new ≡ stored_first (continual_in roles.now) out.old }
{
    let lowest = BandCarrier(0);
    let tmcc = collect(roles, TMCC, TMCC, lowest, out, 0);
    let ac = collect(roles, AC1, AC2, lowest, out, tmcc);
    let cp = collect(roles, CP, CP, lowest, out, ac);
    out[cp] = (roles.len() - 1) as u32;
}

// Stores them where there is room. The bytes of CP, TMCC, AC1 and AC2 follow one another, so that
// one walk counts them all; the edge is one more.
fn collect_continual(roles: &[u8], out: &mut [u32]) -> Result<usize, Refusal>
    requires { (0 < length roles.now) × (length roles.now ≤ 5617) }
    ensures { Continual roles.now out.old result out.new }
{
    let n = count(roles, CP, AC2) + 1;
    if out.len() < n {
        return Err(Refusal::WrongLength);
    }
    store_continual(roles, out);
    Ok(n)
}

// Stores the role bytes of the band in a buffer with room for every mode, and lends them: nothing is
// allocated.
fn band(layout: FrameLayout, phase: Phase, buffer: &mut [u8; 5617]) -> &[u8]
    ensures { result.now ≡ band_roles layout.mode phase.number (wide (kind_codes layout.kinds)) }
{
    let k = layout.mode.total_carriers();
    let roles = &mut buffer[..k];
    layout.roles(phase, roles);
    roles
}

// Data carriers of a layout, in segment-number order.
pub fn data_carriers(layout: FrameLayout, phase: Phase, out: &mut [u32])
    requires { length out.old ≡ 13 * data_carriers_per_segment layout.mode }
    ensures { out.new ≡ data_list layout.mode phase.number (kind_codes layout.kinds) }
{
    let mut buffer = [0u8; 5617];
    collect_data(layout.mode, band(layout, phase, &mut buffer), out);
}

// Continual carriers of a layout. None of them depends on the phase.
pub fn continual_carriers(layout: FrameLayout, out: &mut [u32]) -> Result<usize, Refusal>
    ensures { Continual (band_roles layout.mode 0 (wide (kind_codes layout.kinds))) out.old result out.new }
{
    let mut buffer = [0u8; 5617];
    collect_continual(band(layout, Phase { number: 0 }, &mut buffer), out)
}

// Data list: the data carriers of the band in segment-number order, ascending within a segment. Mode, phase
// and kinds are numbers, as a C host lends them.
//
// Refused by 1 for a bad mode, 2 unless there are thirteen kinds of 0 or 1, 3 for a bad phase, 7
// unless the output has 13 x nc numbers.
pub fn data_list(mode: u8, phase: u8, kinds: &[u8], out: &mut [u32]) -> Result<(), Refusal>
    ensures { DataList (mode_from mode) phase kinds.now out.old (code_of result) out.new }
{
    let layout = FrameLayout::new(mode, kinds)?;
    let phase = Phase::try_from(phase)?;
    if out.len() != 13 * layout.mode.data_carriers_per_segment() {
        return Err(Refusal::WrongLength);
    }
    data_carriers(layout, phase, out);
    Ok(())
}

// Continual list: all TMCC carriers, all AC carriers, all CP carriers, each ascending, and the edge. Mode
// and kinds are numbers, as a C host lends them.
//
// Hands back how many numbers it wrote; what lies beyond them keeps its contents. Refused by 1 for a
// bad mode, 2 unless there are thirteen kinds of 0 or 1, 7 if the output is shorter than the count.
pub fn continual_list(mode: u8, kinds: &[u8], out: &mut [u32]) -> Result<usize, Refusal>
    ensures { ContinualListed (mode_from mode) kinds.now out.old result out.new }
{
    let layout = FrameLayout::new(mode, kinds)?;
    continual_carriers(layout, out)
}
