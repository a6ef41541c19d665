// The pilot grid of the coherent segments, after chanest.rs of isdb-rs (the first two parts of `estimate`;
// ARIB STD-B31, 3.12 and 3.13): the channel at every third carrier, from the pilots in a window of spectra
// around the current one. When they are sent is worked out in `pilot_times`, the estimate at one carrier
// in `pilot_line`.
//
// A coherent segment whose upper neighbour is not coherent is closed by a continual pilot: carrier 0 of
// that neighbour, or the edge.
#![tactic(auto)]

ghost use Rattle.std.specs.Prelude.{◌≡◌, ◌+◌, ◌*◌, ◌≤◌, ◌<◌, length};
ghost use Rattle.params.specs.Params.{mode_from, code_of, kind_codes};
ghost use Rattle.spectra.specs.Spectra.{with_pair};
ghost use Rattle.pilot_times.specs.Window.{at_least_one};
ghost use Rattle.pilot_times.specs.Inner.{ScatteredTimes};
ghost use Rattle.chanest.specs.Grid.{segment_points, grid_points, carrier_of, coherent_at, back_of, window_of, scattered_at, grid_of};
ghost use Rattle.chanest.specs.Grid.{grid, window_code, GridEstimated};
ghost use Rattle.chanest.specs.Inner.{Captured, Placed, point_by, Written};

use frame::FrameLayout;
use ofdm::{BandCarrier, BandPlace};
use params::{Mode, Refusal, SegmentKind};
use pilot_times::{Current, Scattered, Times, Window};

// A point of the grid, counted from the lowest: each is three carriers above the one before.
#[derive(Clone, Copy)]
pub struct GridPoint(pub usize);

impl GridPoint {
    // The carrier of the point.
    fn carrier(self) -> BandCarrier
        requires { self.0 ≤ 1872 }
        ensures { result ≡ carrier_of self.0 }
    {
        BandCarrier(3 * self.0)
    }

    // The symbols since the carrier of the point last had its scattered pilot.
    fn back(self, current: Current) -> usize
        requires { current.phase < 4 }
        ensures { (result ≡ back_of current self.0) × (result < 4) }
    {
        (current.phase as usize + 4 - self.0 % 4) % 4
    }
}

// The lowest point of a place of the band; above the last place it is the edge's.
fn lowest_point(mode: Mode, place: BandPlace) -> GridPoint
    requires { place.0 ≤ 13 }
    ensures { result.0 ≡ place.0 * segment_points mode }
{
    GridPoint(place.0 * (mode.carriers_per_segment() / 3))
}

// The window that the spectra are.
fn window_of(mode: Mode, spectra: &[f32], current: Current) -> Window
    ensures { result ≡ window_of mode spectra.now (at_least_one current) }
{
    let k = mode.total_carriers();
    Window {
        len: k,
        count: spectra.len() / (2 * k),
        current: current.at_least_one(),
    }
}

// Whether the segment at a place of the band is coherent; above the last place there is none.
fn is_coherent(layout: FrameLayout, place: BandPlace) -> bool
    ensures { result ≡ coherent_at (kind_codes layout.kinds) place.0 }
{
    place.0 < 13 && layout.kind(ofdm::segment_at_position(place)) == SegmentKind::Coherent
}

// The spectra of a window, and the signs of the carriers of its layout.
#[derive(Clone, Copy)]
struct Capture<'a> {
    layout: FrameLayout,
    win: Window,
    spectra: &'a [f32],
    signs: &'a [u8],
    ghost captured: { Captured layout.mode win spectra.now signs.now },
}

// The grid's length is asked for by each method: in a struct with the grid, each clause would have to say that
// it is the grid that was lent.
impl Capture<'_> {
    // Writes point i, whose carrier has its pilot at the times.
    #[tactic(auto, using(prbs::specs::Buffered::signs_length))]
    fn write_point(&self, times: Times, i: GridPoint, out: &mut [f32])
        requires { Placed self.now.layout.mode self.now.win times i.0 (length out.old) }
        ensures { out.new ≡ with_pair out.old i.0 (point_by self.now.win times self.now.spectra.now self.now.signs.now i.0) }
    {
        let k = i.carrier();
        let v = pilot_line::estimate_at(self.win, times, self.spectra, k, self.signs[k.0]);
        spectra::put_pair(out, i.0, v);
    }

    // The points of a coherent segment, from its lowest on, each by its scattered pilots.
    fn write_segment(&self, scattered: &Scattered, from: GridPoint, out: &mut [f32])
        requires { length out.old ≡ 2 * grid_points self.now.layout.mode × ScatteredTimes self.now.win scattered.now
            × (from.0 + segment_points self.now.layout.mode ≤ 13 * segment_points self.now.layout.mode) }
        ensures { Written (scattered_at self.now.layout.mode self.now.spectra.now self.now.win.current)
            from.0 (from.0 + segment_points self.now.layout.mode) out.old out.new }
    {
        for i in from.0..from.0 + self.layout.mode.carriers_per_segment() / 3 {
            let point = GridPoint(i);
            let times = scattered.at(point.back(self.win.current));
            self.write_point(times, point, out);
        }
    }

    // The points of the band, place after place from the lowest: those of a coherent segment, and the
    // continual pilot that closes it at the lowest point of the place above, of which the edge is the last.
    fn write_points(&self, out: &mut [f32])
        requires { length out.old ≡ 2 * grid_points self.now.layout.mode }
        ensures { out.new ≡ grid_of self.now.layout.mode (kind_codes self.now.layout.kinds) self.now.spectra.now self.now.win.current out.old }
    {
        let scattered = pilot_times::scattered_times(self.win);
        let continual = pilot_times::continual_times(self.win);
        let mut below = false; // whether the segment below is coherent
        for place in 0..14 {
            let here = BandPlace(place);
            let lowest = lowest_point(self.layout.mode, here);
            let coherent = is_coherent(self.layout, here);
            if coherent {
                self.write_segment(&scattered, lowest, out);
            } else if below {
                self.write_point(continual, lowest, out);
            }
            below = coherent;
        }
    }
}

// What refuses the numbers of a grid: 3 for a bad phase, 5 unless whole spectra, at most 1,024, 6 if none,
// 4 for an index outside, 10 for w above 64, 7 unless n floats are the grid.
fn refusal(mode: Mode, floats: usize, current: Current, n: usize) -> Result<(), Refusal>
    ensures { code_of result ≡ window_code mode floats current n }
{
    let k = mode.total_carriers();
    if current.phase > 3 {
        return Err(Refusal::BadPhase);
    }
    spectra::refusal(k, floats)?;
    let count = floats / (2 * k);
    if current.index >= count {
        return Err(Refusal::Outside);
    }
    if current.w > 64 {
        return Err(Refusal::TooWide);
    }
    if n != 2 * (k / 3 + 2) {
        return Err(Refusal::WrongLength);
    }
    Ok(())
}

// The grid of an accepted call. The signs stand in the front of a buffer with room for every mode: nothing is
// allocated.
fn write_grid(layout: FrameLayout, spectra: &[f32], current: Current, out: &mut [f32])
    requires { window_code layout.mode (length spectra.now) current (length out.old) ≡ 0 }
    ensures { out.new ≡ grid layout.mode (kind_codes layout.kinds) spectra.now current out.old }
{
    let mode = layout.mode;
    let win = window_of(mode, spectra, current);
    let k = win.len;
    let mut buffer = [0u8; 5617];
    prbs::band_w(mode, &mut buffer[..k]);
    let capture = Capture {
        layout,
        win,
        spectra,
        signs: &buffer[..k],
    };
    capture.write_points(out);
}

// The channel at the points of the grid, carriers 0, 3, 6 and so on, for the current one of a window of
// spectra of k_total carriers. Points outside the coherent segments keep their contents, but for the
// continual pilots that close them. Mode, kinds and phase are numbers, as a C host lends them.
//
// Refused by 1 for a bad mode, 2 unless there are thirteen kinds of 0 or 1, 3 for a bad phase, 5 unless
// whole spectra, at most 1,024, 6 if none, 4 for an index outside, 10 for w above 64, 7 unless the grid
// has k_total/3 + 2 pairs.
pub fn estimate_grid(
    mode: u8,
    kinds: &[u8],
    spectra: &[f32],
    current: Current,
    grid: &mut [f32],
) -> Result<(), Refusal>
    ensures { GridEstimated (mode_from mode) kinds.now spectra.now current grid.old (code_of result) grid.new }
{
    let layout = FrameLayout::new(mode, kinds)?;
    refusal(layout.mode, spectra.len(), current, grid.len())?;
    write_grid(layout, spectra, current, grid);
    Ok(())
}
