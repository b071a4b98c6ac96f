//! Numbers side by side in a word. Bit 0 is the lowest.

ghost use Rattle.std.specs.Prelude.{◌≡◌, ◌+◌, ◌*◌, ◌/◌, ◌%◌, ◌^◌, ◌<◌};

/// A number of `width` bits, with another above it.
pub(crate) fn join(low: u64, width: u32, high: u64) -> u64
    requires width { width < 64 }
    requires low { low < 2 ^ width }
    requires high { high * 2 ^ width < 2 ^ 64 }
    ensures { result ≡ low + high * 2 ^ width }
{
    high << width | low
}

/// The number that stands in `width` bits of a word, from bit `at` on.
pub(crate) fn field(word: u64, at: u32, width: u32) -> u64
    requires { at + width < 64 }
    ensures { result ≡ word / 2 ^ at % 2 ^ width }
{
    (word >> at) & ((1 << width) - 1)
}

/// The word of two halves.
pub(crate) fn join_halves(low: u32, high: u32) -> u64
    ensures { result ≡ low + 2 ^ 32 * high }
{
    u64::from(high) << 32 | u64::from(low)
}

/// The halves of a word, the lower one first.
pub(crate) fn halves(word: u64) -> (u32, u32)
    ensures low { result.0 ≡ word % 2 ^ 32 }
    ensures high { result.1 ≡ word / 2 ^ 32 }
{
    ((word & 0xffff_ffff) as u32, (word >> 32) as u32)
}
