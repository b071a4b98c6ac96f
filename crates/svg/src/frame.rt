//! Where moments and bandwidths lie in a picture.

ghost use Rattle.std.specs.Prelude.{◌≡◌, ◌<◌, ◌^◌};
ghost use Rattle.svg.specs.inside.Axis.{first_multiple, multiples};

use grub_book::BW_UNIT;

/// How many pixels wide the part is that has the time.
const PLOT: u64 = 1024;

/// Where it begins.
pub const LEFT: u64 = 130;

/// How high a curve of the whole processor is.
const CURVE: u64 = 64;

/// The span of a picture, and the width in pixels below which a bar is left out.
#[derive(Clone, Copy)]
pub struct Frame {
    /// The first moment.
    pub from: u32,

    /// The last moment.
    pub to: u32,

    /// The least width of a bar, 1 to 1024 pixels.
    pub unit: u16,
}

impl Frame {
    /// Where a moment lies, to whole units. What is outside of the span lies at its ends.
    pub fn x(self, m: u64) -> u64
        ensures most { result < 2 ^ 60 }
    {
        let span = u64::from(self.to.saturating_sub(self.from)).max(1);
        let into = m
            .min(u64::from(self.to))
            .saturating_sub(u64::from(self.from));
        let units = PLOT / u64::from(self.unit.max(1));
        LEFT + into * units / span * u64::from(self.unit)
    }

    /// Where the span ends.
    pub fn right(self) -> u64
        ensures most { result < 2 ^ 60 }
    {
        self.x(u64::from(self.to))
    }

    /// Whether a moment is in the span.
    pub fn is_in(self, m: u32) -> bool {
        self.from <= m && m <= self.to
    }

    /// How far apart the marks of the time axis are: 1, 2 or 5 times a power of ten, such that there are at most 12.
    pub(crate) fn mark_step(self) -> u32 {
        for step in MARK_STEPS {
            if self.multiples(step) <= 12 {
                return step;
            }
        }
        1000000000
    }

    /// By which a step is multiplied for the first multiple in the span or after it.
    pub(crate) fn first_multiple(self, step: u32) -> u64
        ensures { result ≡ first_multiple self step }
    {
        (u64::from(self.from) + u64::from(step)).saturating_sub(1) / u64::from(step.max(1))
    }

    /// How many multiples of a step lie in the span.
    pub(crate) fn multiples(self, step: u32) -> u64
        ensures value { result ≡ multiples self step }
    {
        let last = u64::from(self.to / step.max(1));
        (last + 1).saturating_sub(self.first_multiple(step))
    }
}

/// The steps that marks may have.
const MARK_STEPS: [u32; 28] = [
    1, 2, 5, 10, 20, 50, 100, 200, 500, 1000, 2000, 5000, 10000, 20000, 50000, 100000, 200000,
    500000, 1000000, 2000000, 5000000, 10000000, 20000000, 50000000, 100000000, 200000000,
    500000000, 1000000000,
];

/// How high a bandwidth is drawn.
pub fn height_of(bandwidth: u32) -> u64 {
    u64::from(bandwidth) * CURVE / u64::from(BW_UNIT)
}
