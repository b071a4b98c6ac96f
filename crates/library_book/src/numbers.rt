//! A reservation and the constants of a runqueue as plain numbers.

ghost use Rattle.std.specs.Prelude.{◌≡◌, ◌↔◌};
ghost use Rattle.grub_book.specs.Bandwidth.{IsReservation, IsCapacity};
ghost use Rattle.library_book.specs.Numbers.{reservation_of, capacity_of, reservation_fault, constants_fault};

use crate::codes::{
    DONE, PERIOD_OUT_OF_RANGE, RUNTIME_OUT_OF_RANGE, TOO_SMALL, UEXTRA_OUT_OF_RANGE,
    UMAX_OUT_OF_RANGE,
};
use grub_book::{ParamFault, Params, Queue, QueueFault};

/// A reservation: a runtime in each period, which is the relative deadline too.
#[repr(C)]
#[derive(Clone, Copy, Debug, PartialEq, Eq)]
pub struct NdParams {
    pub runtime: u32,
    pub period: u32,
}

/// The constants of a runqueue, in 1/2^20.
#[repr(C)]
#[derive(Clone, Copy, Debug, PartialEq, Eq)]
pub struct NdCapacity {
    pub umax: u32,
    pub uextra: u32,
}

/// A task's server: what is left of its budget, and its deadline.
#[repr(C)]
#[derive(Clone, Copy, Debug, PartialEq, Eq)]
pub struct NdServer {
    pub budget: u32,
    pub deadline: u32,
}

/// The bandwidths of a runqueue, in 1/2^20.
#[repr(C)]
#[derive(Clone, Copy, Debug, PartialEq, Eq)]
pub struct NdReading {
    /// Of its active tasks, contending or not.
    pub running_bw: u32,

    /// Of all its tasks.
    pub this_bw: u32,
}

/// 0 where the numbers are a reservation, else 1, 2 or 3, the first that holds.
pub fn params_fault(params: NdParams) -> u32
    ensures value { result ≡ reservation_fault (reservation_of params) }
    ensures none { (result ≡ DONE) ↔ IsReservation (reservation_of params) }
{
    match Params::new(params.runtime, params.period) {
        Ok(_) => DONE,
        Err(ParamFault::PeriodOutOfRange) => PERIOD_OUT_OF_RANGE,
        Err(ParamFault::RuntimeOutOfRange) => RUNTIME_OUT_OF_RANGE,
        Err(ParamFault::TooSmall) => TOO_SMALL,
    }
}

/// 0 where the numbers are the constants of a runqueue, else 4 or 5, the first that holds.
pub fn capacity_fault(queue: NdCapacity) -> u32
    ensures value { result ≡ constants_fault (capacity_of queue) }
    ensures none { (result ≡ DONE) ↔ IsCapacity (capacity_of queue) }
{
    match Queue::new(queue.umax, queue.uextra) {
        Ok(_) => DONE,
        Err(QueueFault::UmaxOutOfRange) => UMAX_OUT_OF_RANGE,
        Err(QueueFault::UextraOutOfRange) => UEXTRA_OUT_OF_RANGE,
    }
}
