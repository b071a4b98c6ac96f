//! Where moments and bandwidths lie in a picture.

ghost use Rattle.std.specs.Prelude.{◌<◌, ◌^◌};

use state_history::Span;

/// How many pixels wide the part is that has the time.
pub const PLOT: u64 = 1024;

/// Where it begins.
pub const LEFT: u64 = 176;

/// How high a curve of the whole processor is.
pub const CURVE: u64 = 64;

/// The whole processor, as a bandwidth.
const WHOLE: u64 = 1 << 20;

/// The part of a record that a picture shows, and the width in pixels of its columns: a bar is one wide at least.
#[derive(Clone, Copy)]
pub struct PictureFrame {
    pub span: Span,

    /// 1 to 1024.
    pub unit: u16,
}

impl PictureFrame {
    /// The left edge of the column in which a moment lies; what is outside of the span lies at its ends.
    pub fn x(self, at: u64) -> u64
        ensures most { result < 2 ^ 40 }
    {
        let length = self.span.to.saturating_sub(self.span.from).max(1);
        let into = at.min(self.span.to).saturating_sub(self.span.from);
        let pixel = u128::from(into) * u128::from(PLOT) / u128::from(length);
        let pixel = pixel.min(u128::from(PLOT)) as u64;
        LEFT + pixel.saturating_sub(pixel % u64::from(self.unit.max(1)))
    }

    /// Where the span ends.
    pub fn right(self) -> u64
        ensures most { result < 2 ^ 40 }
    {
        self.x(self.span.to)
    }
}

/// How high a bandwidth is drawn; what is above a whole processor is drawn as high as that.
pub fn height_of(bandwidth: u64) -> u64 {
    bandwidth.min(WHOLE) * CURVE / WHOLE
}
