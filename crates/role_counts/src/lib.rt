// How many carriers of a segment have each role. Its mode and kind decide it: neither the row of the
// tables nor the phase changes a count.
#![tactic(auto)]

ghost use Rattle.std.specs.Prelude.{◌≡◌, ◌≤◌};
ghost use Rattle.role_counts.specs.Counts.{kind_counts};
ghost use Rattle.role_counts.specs.Counts.{units as Counts·units};

use params::{Mode, SegmentKind};

// How many carriers of a segment have each role.
#[derive(Clone, Copy)]
pub struct KindCounts {
    pub data: usize,
    pub sp: usize,
    pub cp: usize,
    pub tmcc: usize,
    pub ac1: usize,
    pub ac2: usize,
}

// Mode 1's segment is the unit of carriers.
fn units(mode: Mode) -> usize
    ensures value { result ≡ Counts·units mode }
    ensures within { (1 ≤ result) × (result ≤ 4) }
{
    match mode {
        Mode::M1 => 1,
        Mode::M2 => 2,
        Mode::M3 => 4,
    }
}

// The counts of a segment: neither its number nor the phase changes them.
pub fn kind_counts(mode: Mode, kind: SegmentKind) -> KindCounts
    ensures { result ≡ kind_counts mode kind }
{
    let u = units(mode);
    match kind {
        SegmentKind::Coherent => KindCounts {
            data: 96 * u,
            sp: 9 * u,
            cp: 0,
            tmcc: u,
            ac1: 2 * u,
            ac2: 0,
        },
        SegmentKind::Differential => KindCounts {
            data: 96 * u,
            sp: 0,
            cp: 1,
            tmcc: 5 * u,
            ac1: 2 * u,
            ac2: 5 * u - 1,
        },
    }
}
