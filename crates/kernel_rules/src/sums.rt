//! What an event does to the sums of a runqueue.

ghost use Rattle.std.specs.Prelude.{◌≡◌};
ghost use Rattle.kernel_rules.specs.Sums.{share_of, changed_of, no_change};

use trace_data::Sums;

/// What an event adds to `this_bw` and `running_bw` of one runqueue, modulo 2^64, and what it gives back to or takes
/// from the root domain, whose CPUs each have a share of it in `extra_bw`.
#[derive(Clone, Copy)]
pub struct SumsChange {
    pub this_bw: u64,
    pub running_bw: u64,
    pub freed: Option<u64>,
    pub taken: Option<u64>,
}

/// Nothing.
pub fn unchanged() -> SumsChange
    ensures { result ≡ no_change }
{
    SumsChange {
        this_bw: 0,
        running_bw: 0,
        freed: None,
        taken: None,
    }
}

/// `this_bw` and `running_bw` after a change (`__add_rq_bw`, `__sub_rq_bw`, `__add_running_bw`, `__sub_running_bw`).
pub fn changed(sums: Sums, change: SumsChange) -> Sums
    ensures { result ≡ changed_of sums change }
{
    Sums {
        this_bw: sums.this_bw.wrapping_add(change.this_bw),
        running_bw: sums.running_bw.wrapping_add(change.running_bw),
        extra_bw: sums.extra_bw,
    }
}

/// Of a bandwidth, what `extra_bw` of each of so many CPUs has (`__dl_add`, `__dl_sub`); 0 where there is none.
pub fn share(bw: u64, cpus: u64) -> u64
    ensures { result ≡ share_of bw cpus }
{
    if cpus == 0 { 0 } else { bw / cpus }
}
