// The role of one carrier of the band, from the tables of its own segment, without building a map
// (document 02, ask 3). The role map of the crate frame has the role of every carrier; this is one
// byte of it, for whoever looks up single carriers.
#![tactic(auto)]

ghost use Rattle.std.specs.Prelude.{◌≡◌, ◌<◌};
ghost use Rattle.lists.specs.Tests.{memb};
ghost use Rattle.lists.specs.Select.{Ascending};
ghost use Rattle.params.specs.Params.{mode_from, total_carriers, kind_codes};
ghost use Rattle.frame.specs.Roles.{ofdm_segment, place_role, role_at, wide};
ghost use Rattle.carrier_role.specs.Inner.{table_role};
ghost use Rattle.carrier_role.specs.CarrierRole.{RoleTold};

use frame::{AcKind, CarrierRole, FrameLayout};
use ofdm::{BandCarrier, BandPlace, Segment, SegmentPlace};
use params::{Mode, Phase, Refusal, SegmentKind};

// Whether a row of a table has a place. A row ascends, so the first entry that is not below the place decides.
// By hand for speed: measured in mode 3, `binary_search_by_key` takes 12 to 31 in 100 longer; `contains` reads on.
fn has_place(row: &[u16], p: SegmentPlace) -> bool
    requires { Ascending row.now }
    ensures { result ≡ memb p.0 row.now }
{
    let wanted = p.0;
    for place in row {
        let entry = *place as usize;
        if wanted <= entry {
            return entry == wanted;
        }
    }
    false
}

// The role of a place that is no pilot: what the tables say, or data.
fn table_role(mode: Mode, seg: Segment, kind: SegmentKind, p: SegmentPlace) -> CarrierRole
    ensures { result ≡ table_role mode kind seg.number p.0 }
{
    if has_place(tables::tmcc_positions(mode, kind, seg), p) {
        return CarrierRole::Tmcc;
    }
    if has_place(tables::ac1_positions(mode, kind, seg), p) {
        return CarrierRole::Ac(AcKind::Ac1);
    }
    if has_place(tables::ac2_positions(mode, kind, seg), p) {
        return CarrierRole::Ac(AcKind::Ac2);
    }
    CarrierRole::Data
}

// The role of a place of a segment in a symbol with the given SP phase (of no effect in a
// differential segment). Mode, segment and kind name the tables' rows, as they do in `tables`. The pilots'
// two lines stand in `frame::pilot_role` too: one public function is no plainer, its `Data` would mean no pilot.
#[tactic(auto, unfolding(frame::specs::Roles::place_role))]
fn place_role(
    mode: Mode,
    seg: Segment,
    kind: SegmentKind,
    phase: Phase,
    p: SegmentPlace,
) -> CarrierRole
    ensures { result ≡ place_role mode (ofdm_segment seg.number kind) phase.number p.0 }
{
    match kind {
        SegmentKind::Coherent if frame::is_sp(p, phase.number) => CarrierRole::Sp,
        SegmentKind::Differential if p.0 == 0 => CarrierRole::Cp,
        _ => table_role(mode, seg, kind, p),
    }
}

// The role of a carrier of an accepted layout: the edge, or what the carrier's place in its segment
// says.
fn band_role(layout: FrameLayout, phase: Phase, k: BandCarrier) -> CarrierRole
    requires { k.0 < total_carriers layout.mode }
    ensures { result ≡ role_at layout.mode phase.number (wide (kind_codes layout.kinds)) k.0 }
{
    let mode = layout.mode;
    let edge = ofdm::first_carrier(mode, BandPlace(13));
    if k == edge {
        return CarrierRole::EdgeCp;
    }
    let at = ofdm::carrier_place(mode, k);
    let seg = ofdm::segment_at_position(at.place);
    place_role(mode, seg, layout.kind(seg), phase, at.p)
}

// The role of carrier k in a mode, kinds and phase, which are numbers, as a C host lends them.
//
// Refused as the role map is, with k in the place of the output: by 1 for a bad mode, 2 unless there
// are thirteen kinds of 0 or 1, 3 for a bad phase, 4 for a carrier that the band does not have.
pub fn carrier_role(
    mode: u8,
    phase: u8,
    kinds: &[u8],
    k: BandCarrier,
) -> Result<CarrierRole, Refusal>
    ensures { RoleTold (mode_from mode) phase kinds.now k.0 result }
{
    let layout = FrameLayout::new(mode, kinds)?;
    let phase = Phase::try_from(phase)?;
    if layout.mode.total_carriers() <= k.0 {
        return Err(Refusal::Outside);
    }
    Ok(band_role(layout, phase, k))
}
