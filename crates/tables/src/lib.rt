// The tables of ARIB STD-B31 that the carrier layout stands on, after tables.rs of isdb-rs: carriers
// of a segment (Tables 3-14 and 3-15), the sign register's first states (Table 3-16), carrier
// randomizing (Table 3-13). The numbers are in standard.rt; specs/ holds them as definitions, with
// their rules. A row is named by the segment number that the standard prints it for.
//
// Mode, kind and segment go together here and in the crates above: they name a row of a table. A struct of
// the three is no plainer: callers hold each on its own, and would make the struct only for the call.
#![tactic(auto)]

mod standard;

ghost use Rattle.std.specs.Prelude.{◌≡◌, ◌<◌, get_or};
ghost use Rattle.tables.specs.Rows.{carrier_randomize};
ghost use Rattle.tables.specs.Places.{tmcc_of, ac1_of, ac2_of, init_of};
ghost use Rattle.params.specs.Params.{data_carriers_per_segment};

use ofdm::Segment;
use params::{Mode, SegmentKind};

// TMCC places of a segment, ascending.
pub fn tmcc_positions(mode: Mode, kind: SegmentKind, seg: Segment) -> &'static [u16]
    ensures { result.now ≡ tmcc_of mode kind seg.number }
{
    match (kind, mode) {
        (SegmentKind::Coherent, Mode::M1) => &standard::COH_TMCC_M1[seg.number],
        (SegmentKind::Coherent, Mode::M2) => &standard::COH_TMCC_M2[seg.number],
        (SegmentKind::Coherent, Mode::M3) => &standard::COH_TMCC_M3[seg.number],
        (SegmentKind::Differential, Mode::M1) => &standard::DIFF_TMCC_M1[seg.number],
        (SegmentKind::Differential, Mode::M2) => &standard::DIFF_TMCC_M2[seg.number],
        (SegmentKind::Differential, Mode::M3) => &standard::DIFF_TMCC_M3[seg.number],
    }
}

// AC1 places of a segment, ascending, the same in both kinds.
pub fn ac1_positions(mode: Mode, kind: SegmentKind, seg: Segment) -> &'static [u16]
    ensures { result.now ≡ ac1_of mode kind seg.number }
{
    match mode {
        Mode::M1 => &standard::AC1_M1[seg.number],
        Mode::M2 => &standard::AC1_M2[seg.number],
        Mode::M3 => &standard::AC1_M3[seg.number],
    }
}

// AC2 places of a segment, ascending. A coherent one has none.
pub fn ac2_positions(mode: Mode, kind: SegmentKind, seg: Segment) -> &'static [u16]
    ensures { result.now ≡ ac2_of mode kind seg.number }
{
    match (kind, mode) {
        (SegmentKind::Coherent, _) => &[],
        (SegmentKind::Differential, Mode::M1) => &standard::DIFF_AC2_M1[seg.number],
        (SegmentKind::Differential, Mode::M2) => &standard::DIFF_AC2_M2[seg.number],
        (SegmentKind::Differential, Mode::M3) => &standard::DIFF_AC2_M3[seg.number],
    }
}

// The sign register's first state in a segment, D1 in the highest of eleven bits.
pub fn prbs_segment_init(mode: Mode, seg: Segment) -> u16
    ensures { result ≡ init_of mode seg.number }
{
    match mode {
        Mode::M1 => standard::PRBS_INIT_M1[seg.number],
        Mode::M2 => standard::PRBS_INIT_M2[seg.number],
        Mode::M3 => standard::PRBS_INIT_M3[seg.number],
    }
}

// Where randomizing puts a data carrier of a segment.
pub fn carrier_randomize(mode: Mode, before: usize) -> u16
    requires { before < data_carriers_per_segment mode }
    ensures { result ≡ get_or (carrier_randomize mode) before 0 }
{
    match mode {
        Mode::M1 => standard::CARRIER_RANDOMIZE_M1[before],
        Mode::M2 => standard::CARRIER_RANDOMIZE_M2[before],
        Mode::M3 => standard::CARRIER_RANDOMIZE_M3[before],
    }
}
