//! What the kernel itself charges, with its own rounding.

ghost use Rattle.std.specs.Prelude.{◌≡◌};
ghost use Rattle.library_book.specs.Kernel.{kernel_charge_of, reclaiming};

use kernel_rules::{ChargeLaw, ChargedRunqueue, Entity, RECLAIM, cost, fresh};
use trace_data::{Parameters, Sums};

/// The first kernel that charges by max_bw: 6.5.
const KERNEL_6_5: u32 = 0x060500;

/// What a run of `dt` nanoseconds takes from the budget of a task of bandwidth `bw` with SCHED_FLAG_RECLAIM, in
/// nanoseconds (the kernel's `grub_reclaim` of kernel/sched/deadline.c). `kernel` is its version as KERNEL_VERSION has it,
/// 0x060100 for 6.1; the sums are those of its runqueue, and max_bw counts from 6.5 on. As the kernel's own numbers are,
/// every number is taken modulo 2^64, so that any numbers have a charge.
pub fn kernel_charge(
    kernel: u32,
    dt: u64,
    bw: u64,
    this_bw: u64,
    running_bw: u64,
    extra_bw: u64,
    max_bw: u64,
    bw_ratio: u64,
) -> u64
    ensures { result
        ≡ kernel_charge_of kernel dt bw this_bw running_bw extra_bw max_bw bw_ratio }
{
    let law = if kernel < KERNEL_6_5 {
        ChargeLaw::LinuxBefore65
    } else {
        ChargeLaw::LinuxFrom65
    };
    let runqueue = ChargedRunqueue {
        sums: Sums {
            this_bw,
            running_bw,
            extra_bw,
        },
        max_bw,
        bw_ratio,
    };
    cost(law, reclaiming(bw), runqueue, dt)
}

/// An entity of this bandwidth with SCHED_FLAG_RECLAIM.
fn reclaiming(bw: u64) -> Entity
    ensures { result ≡ reclaiming bw }
{
    Entity {
        parameters: Parameters {
            dl_runtime: 0,
            dl_deadline: 0,
            dl_period: 0,
            flags: RECLAIM,
        },
        dl_bw: bw,
        ..fresh(false)
    }
}
