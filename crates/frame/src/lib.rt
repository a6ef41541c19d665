// Roles of carriers, after frame.rs of isdb-rs (ARIB STD-B31, 3.12 and 3.14): what each carrier of a
// segment and of the band carries. The sign register of the same file is the crate prbs, the value of
// a pilot the crate pilots, its lists of carriers are the crate carrier_lists.
//
// Carriers of a segment are counted from its lowest frequency, 0 to c - 1; those of the band from
// carrier 0 of segment 11, the lowest place, up to the edge carrier above segment 12.
// Kinds come in segment-number order. A refused call leaves the lent buffer untouched.
#![tactic(auto)]

ghost use Rattle.std.specs.Prelude.{◌≡◌, ◌<◌, length, get_or, map};
ghost use Rattle.lists.specs.Lists.{up_to};
ghost use Rattle.params.specs.Params.{mode_from, carriers_per_segment, total_carriers, kind_from, code_of, kind_codes};
ghost use Rattle.params.specs.declared.SegmentKind.TheVariants.{Coherent};
ghost use Rattle.tables.specs.Places.{is_sp};
ghost use Rattle.frame.specs.Roles.{role_byte, ofdm_segment, segment_roles, band_roles, wide, between};
ghost use Rattle.frame.specs.Inner.{pilot_role, pilot_byte, marked, Markable, KindsTold, LayoutTold};
ghost use Rattle.frame.specs.Operations.{RoleMap};

use ofdm::{BandPlace, Segment, SegmentPlace};
use params::{Mode, Phase, Refusal, SegmentKind};

// The byte of each role. The bytes have names of their own, since `carrier_lists` asks for all roles whose
// bytes lie between two of these.
pub const DATA: u8 = 0;

pub const SP: u8 = 1;

pub const CP: u8 = 2;

pub const TMCC: u8 = 3;

pub const AC1: u8 = 4;

pub const AC2: u8 = 5;

pub const EDGE_CP: u8 = 6;

// Kind of an AC carrier.
#[derive(Clone, Copy, Debug, PartialEq, Eq)]
pub enum AcKind {
    // In all segments.
    Ac1,
    // In differential segments only.
    Ac2,
}

// Role of a band carrier in a symbol.
#[derive(Clone, Copy, Debug, PartialEq, Eq)]
pub enum CarrierRole {
    Data,
    // Scattered pilot.
    Sp,
    // Continual pilot: carrier 0 of a differential segment.
    Cp,
    Tmcc,
    Ac(AcKind),
    // Rightmost continual carrier of the band.
    EdgeCp,
}

// The role as a byte of the role map, 0 to 6.
impl From<CarrierRole> for u8 {
    ghost from_gives = { λ role byte. byte ≡ role_byte role };

    fn from(role: CarrierRole) -> u8 {
        match role {
            CarrierRole::Data => DATA,
            CarrierRole::Sp => SP,
            CarrierRole::Cp => CP,
            CarrierRole::Tmcc => TMCC,
            CarrierRole::Ac(AcKind::Ac1) => AC1,
            CarrierRole::Ac(AcKind::Ac2) => AC2,
            CarrierRole::EdgeCp => EDGE_CP,
        }
    }
}

// Whether a place of a coherent segment is a scattered pilot at a phase (Figure 3-30).
// It takes any number, not a `Phase`: no contract may ask more than it did.
pub fn is_sp(p: SegmentPlace, phase: u8) -> bool
    ensures { result ≡ is_sp Coherent phase p.0 }
{
    p.0 % 12 == 3 * (phase as usize)
}

// Whether a byte lies from low to high. Not a `RangeInclusive`: a contract would have to say that it is not
// used up.
pub fn is_between(low: u8, high: u8, b: u8) -> bool
    ensures { result ≡ between low high b }
{
    low <= b && b <= high
}

// The role of a place so far as pilots decide it: the rest is data until the tables are marked.
fn pilot_role(kind: SegmentKind, phase: Phase, p: SegmentPlace) -> CarrierRole
    ensures { result ≡ pilot_role kind phase.number p.0 }
{
    match kind {
        SegmentKind::Coherent if is_sp(p, phase.number) => CarrierRole::Sp,
        SegmentKind::Differential if p.0 == 0 => CarrierRole::Cp,
        _ => CarrierRole::Data,
    }
}

// A segment's pilots, everything else data.
fn write_pilots(kind: SegmentKind, phase: Phase, out: &mut [u8])
    ensures { out.new ≡ up_to (pilot_byte kind phase.number) (length out.old) }
{
    for (p, role) in out.iter_mut().enumerate() {
        *role = u8::from(pilot_role(kind, phase, SegmentPlace(p)));
    }
}

// Gives the places of a table's row a role.
fn mark(row: &[u16], role: CarrierRole, out: &mut [u8])
    requires { Markable row.now out.old }
    ensures { out.new ≡ marked row.now (role_byte role) out.old }
{
    let byte = u8::from(role);
    for place in row {
        out[*place as usize] = byte;
    }
}

// Role bytes of a segment's carriers in a symbol with the given SP phase (of no effect in a differential
// segment), lowest first. Mode, segment and kind name the tables' rows, as they do in `tables`.
pub fn segment_roles(mode: Mode, seg: Segment, kind: SegmentKind, phase: Phase, out: &mut [u8])
    requires { length out.old ≡ carriers_per_segment mode }
    ensures { out.new ≡ segment_roles mode phase.number (ofdm_segment seg.number kind) }
{
    write_pilots(kind, phase, out);
    mark(
        tables::tmcc_positions(mode, kind, seg),
        CarrierRole::Tmcc,
        out,
    );
    mark(
        tables::ac1_positions(mode, kind, seg),
        CarrierRole::Ac(AcKind::Ac1),
        out,
    );
    mark(
        tables::ac2_positions(mode, kind, seg),
        CarrierRole::Ac(AcKind::Ac2),
        out,
    );
}

// A layout that was accepted: its mode, and the kind of each segment, by segment number.
#[derive(Clone, Copy)]
pub struct FrameLayout {
    pub mode: Mode,
    pub kinds: [SegmentKind; 13],
}

// Kinds from outside: thirteen codes, each 0 or 1.
// `question::read_kinds` has such a loop too. One function for both is no plainer: it would take a closure,
// and its contract would say what the closure gives for each entry. Over `read.iter_mut().zip(kinds)` the
// proof did not close: it knows nothing of the entries that are written so.
fn read_kinds(kinds: &[u8]) -> Result<[SegmentKind; 13], Refusal>
    ensures { KindsTold kinds.now result }
{
    if kinds.len() != 13 {
        return Err(Refusal::BadKinds);
    }
    let mut read = [SegmentKind::Coherent; 13];
    for (i, code) in kinds.iter().enumerate() {
        read[i] = SegmentKind::try_from(*code)?;
    }
    Ok(read)
}

impl FrameLayout {
    // Refused by 1 for a bad mode, by 2 unless there are thirteen kinds of 0 or 1.
    pub fn new(mode: u8, kinds: &[u8]) -> Result<FrameLayout, Refusal>
        ensures { LayoutTold (mode_from mode) kinds.now result }
    {
        let mode = Mode::try_from(mode)?;
        let kinds = read_kinds(kinds)?;
        Ok(FrameLayout { mode, kinds })
    }

    // The layout of any thirteen bytes, each above 0 differential. What takes a layout answers for these as
    // it does for kinds that `new` accepts: its band is that of the bytes.
    pub fn of_codes(mode: Mode, codes: [u8; 13]) -> FrameLayout
        ensures mode { result.mode ≡ mode }
        ensures kinds { result.kinds ≡ map kind_from codes }
        ensures band { wide (kind_codes result.kinds) ≡ wide codes }
    {
        FrameLayout {
            mode,
            kinds: codes.map(SegmentKind::from_code),
        }
    }

    // The kind of a segment.
    pub fn kind(self, seg: Segment) -> SegmentKind
        ensures { result ≡ kind_from (get_or (kind_codes self.kinds) seg.number 0) }
    {
        self.kinds[seg.number]
    }

    // Role bytes of all carriers of the band, segment after segment from the lowest place.
    pub fn roles(self, phase: Phase, out: &mut [u8])
        requires { length out.old ≡ total_carriers self.mode }
        ensures { out.new ≡ band_roles self.mode phase.number (wide (kind_codes self.kinds)) }
    {
        let mode = self.mode;
        let c = mode.carriers_per_segment();
        for place in 0..13 {
            let seg = ofdm::segment_at_position(BandPlace(place));
            let from = ofdm::first_carrier(mode, BandPlace(place)).0;
            let to = from + c;
            segment_roles(mode, seg, self.kind(seg), phase, &mut out[from..to]);
        }
        let edge = ofdm::first_carrier(mode, BandPlace(13)).0;
        out[edge] = u8::from(CarrierRole::EdgeCp);
    }
}

// Role map: the role byte of each carrier of the band. Mode, phase and kinds are numbers, as a C host
// lends them.
//
// Refused by 1 for a bad mode, 2 unless there are thirteen kinds of 0 or 1, 3 for a bad phase, 7
// unless the output has k_total bytes.
pub fn role_map(mode: u8, phase: u8, kinds: &[u8], out: &mut [u8]) -> Result<(), Refusal>
    ensures { RoleMap (mode_from mode) phase kinds.now out.old (code_of result) out.new }
{
    let layout = FrameLayout::new(mode, kinds)?;
    let phase = Phase::try_from(phase)?;
    if out.len() != layout.mode.total_carriers() {
        return Err(Refusal::WrongLength);
    }
    layout.roles(phase, out);
    Ok(())
}
