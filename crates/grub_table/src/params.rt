//! The word of a reservation: its runtime in bits 0 to 31, and its period in bits 32 to 63.

ghost use Rattle.std.specs.Prelude.{◌≡◌, ◌≢◌, ◌↔◌, IsNone, Some};
ghost use Rattle.grub_book.specs.Bandwidth.{Reservation, IsReservation};
ghost use Rattle.grub_table.specs.Words.{params_word};

use crate::bits::{halves, join_halves};
use grub_book::Params;

/// The word of the reservation. Every reservation has one.
pub fn pack_params(params: Params) -> u64
    ensures { result ≡ params_word params }
{
    join_halves(params.runtime(), params.period())
}

/// The one reservation that has this word; none where there is none.
pub fn unpack_params(word: u64) -> Option<Params>
    ensures found { (p : Reservation) → (result ≡ Some p)
        ↔ (IsReservation p × (params_word p ≡ word)) }
    ensures none { IsNone result ↔ ((p : Reservation) → IsReservation p → params_word p ≢ word) }
{
    let (runtime, period) = halves(word);
    Params::new(runtime, period).ok()
}
