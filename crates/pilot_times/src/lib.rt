// When a carrier's pilot is sent, after chanest.rs of isdb-rs (`estimate`; ARIB STD-B31, 3.12 and 3.13):
// in which spectra of a window around the current symbol, and the mean and the spread of their offsets
// from it.
//
// A scattered pilot comes back on its carrier every fourth symbol, a continual pilot every symbol.
#![tactic(auto)]

ghost use Rattle.std.specs.Prelude.{◌≡◌, ◌≤◌, ◌<◌};
ghost use Rattle.pilot_times.specs.Window.{at_least_one, scattered_offsets, continual_offsets, offset_of, mean, squared};
ghost use Rattle.pilot_times.specs.Inner.{spectrum_of, Inside, Counted, Searchable, Skippable, Skipped, Reached, offsets_of, sum_at, TimesOf};
ghost use Rattle.pilot_times.specs.Inner.{Usable, ScatteredTimes, SentAgo, ContinualTimes};

// The symbol that a grid is asked for: the phase of its scattered pilots, its index among the spectra,
// and how many scattered pilots of a carrier count on each side of it.
// The phase is no `Phase`: a host may give any number, which `estimate_grid` refuses, and no contract may ask more
// of callers than it did.
#[derive(Clone, Copy)]
pub struct Current {
    pub phase: u8,
    pub index: usize,
    pub w: usize,
}

// `count` spectra of `len` carriers, and the current one among them.
// No ghost field puts it among them: `offset` asks only for an index of at most 1,024, and no contract may ask more
// of callers than it did.
#[derive(Clone, Copy)]
pub struct Window {
    pub len: usize,
    pub count: usize,
    pub current: Current,
}

// Offsets from the current symbol: `count` of them, the first `before` symbols before it, then `step`
// apart.
#[derive(Clone, Copy)]
pub struct Offsets {
    pub before: usize,
    pub step: usize,
    pub count: usize,
}

// The spectra in which a carrier's pilot is sent: `count` of them from `first` on, `step` apart.
// No ghost field bounds them: `Sent::spectrum` asks that they lie below 1,024, `pilot_line::estimate_at` that they
// lie in its window, and no contract may ask more of callers than it did.
#[derive(Clone, Copy)]
pub struct Sent {
    pub first: usize,
    pub step: usize,
    pub count: usize,
}

// The same, with the mean of their offsets from the current symbol and the spread about it. Many
// carriers share them, so they are worked out once.
#[derive(Clone, Copy)]
pub struct Times {
    pub sent: Sent,
    pub mean: f32,
    pub spread: f32,
}

// The times of the carriers whose scattered pilot was sent last now, or one, two or three symbols ago.
#[derive(Clone, Copy)]
pub struct Scattered {
    pub ago: [Times; 4],
}

impl Current {
    // A time window of 0 counts as 1.
    pub fn at_least_one(self) -> Current
        ensures { result ≡ at_least_one self }
    {
        Current {
            w: self.w.max(1),
            ..self
        }
    }

    // The offsets of a scattered pilot that was sent last `back` symbols ago.
    fn scattered_offsets(self, back: usize) -> Offsets
        requires { Counted self × (back < 4) }
        ensures { result ≡ scattered_offsets self back }
    {
        Offsets {
            before: 4 * (self.w - 1) + back,
            step: 4,
            count: 2 * self.w,
        }
    }

    // The offsets of a continual pilot.
    fn continual_offsets(self) -> Offsets
        requires { Counted self }
        ensures { result ≡ continual_offsets self }
    {
        Offsets {
            before: 2 * self.w - 1,
            step: 1,
            count: 4 * self.w - 1,
        }
    }
}

// How many of the offsets lie before the window, whose current spectrum is t.
fn skipped(t: usize, offsets: Offsets) -> usize
    requires { Skippable offsets }
    ensures { Skipped t offsets result }
{
    offsets.before.saturating_sub(t).div_ceil(offsets.step)
}

// The spectra of a window at the offsets.
fn sent_in(win: Window, offsets: Offsets) -> Sent
    requires { Searchable win offsets }
    ensures { Reached win offsets result }
{
    let t = win.current.index;
    let step = offsets.step;
    let before = skipped(t, offsets);
    let first = t + step * before - offsets.before;
    if offsets.count <= before || win.count <= first {
        return Sent {
            first: 0,
            step,
            count: 0,
        };
    }
    let room = (win.count - 1 - first) / step + 1;
    Sent {
        first,
        step,
        count: room.min(offsets.count - before),
    }
}

impl Sent {
    // The i-th of the spectra.
    pub fn spectrum(self, i: usize) -> usize
        requires { Inside 1024 self × (i < self.count) }
        ensures { result ≡ spectrum_of self i }
    {
        self.first + self.step * i
    }
}

// The offset of spectrum s from the current one.
pub fn offset(win: Window, s: usize) -> f32
    requires { (win.current.index ≤ 1024) × (s ≤ 1024) }
    ensures { result ≡ offset_of win s }
{
    (s as i64 - win.current.index as i64) as f32
}

// A window, and the spectra of it in which a carrier's pilot is sent.
#[derive(Clone, Copy)]
struct Found {
    win: Window,
    sent: Sent,
    ghost inside: { Inside 1024 sent },
    ghost current: { win.current.index ≤ 1024 },
}

impl Found {
    // The mean of the offsets.
    #[tactic(auto, using(crate::specs::Summing::mean_is))]
    fn mean_offset(self) -> f32
        ensures { result ≡ mean (offsets_of self.win self.sent) }
    {
        self.sum_of_offsets() / self.sent.count as f32
    }

    // The sum of the offsets.
    fn sum_of_offsets(self) -> f32
        ensures { result ≡ sum_at (offset_of self.win) self.sent }
    {
        (0..self.sent.count)
            .map(|i| offset(self.win, self.sent.spectrum(i)))
            .sum()
    }

    // How far the offsets are spread about their mean.
    fn spread_about(self, mean: f32) -> f32
        ensures { result ≡ sum_at (λ s. squared mean (offset_of self.win s)) self.sent }
    {
        (0..self.sent.count)
            .map(|i| {
                let x = offset(self.win, self.sent.spectrum(i)) - mean;
                x * x
            })
            .sum()
    }
}

// The times of a carrier whose pilot is sent at the offsets.
#[tactic(auto, using(crate::specs::Summing::inside_larger))]
fn times_at(win: Window, offsets: Offsets) -> Times
    requires { Searchable win offsets }
    ensures { TimesOf win offsets result }
{
    let sent = sent_in(win, offsets);
    let found = Found { win, sent };
    let mean = found.mean_offset();
    let spread = found.spread_about(mean);
    Times { sent, mean, spread }
}

// The times of the scattered pilots, w on each side of the current symbol.
pub fn scattered_times(win: Window) -> Scattered
    requires { Usable win }
    ensures { ScatteredTimes win result }
{
    Scattered {
        ago: std::array::from_fn(|back| times_at(win, win.current.scattered_offsets(back))),
    }
}

// The times of the continual pilots, over the same symbols.
pub fn continual_times(win: Window) -> Times
    requires { Usable win }
    ensures { ContinualTimes win result }
{
    times_at(win, win.current.continual_offsets())
}

impl Scattered {
    // The times of the carriers whose pilot was sent last `back` symbols ago. All four are lent: handed over by
    // value they were copied for each point of a grid.
    pub fn at(&self, back: usize) -> Times
        requires { back < 4 }
        ensures { SentAgo self.now back result }
    {
        self.ago[back]
    }
}
