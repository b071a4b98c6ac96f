//! What is fixed for a record: the kernel's rules, its limits, and the processors of the root domain.

ghost use Rattle.std.specs.Prelude.{◌≡◌, ◌-◌, ◌^◌, fold, min};
ghost use Rattle.timer_play.specs.Kernels.{first_extra_of, fixed_of, inverse_of, is_absent, law_for, limits_at, limits_by, no_limits, other_limits_by, picks_of, server_bw_by, setup_by, stops_with_timer_of};

use kernel_rules::{BW_UNIT, ChargeLaw, Servers, charge_law, ratio, release_of, share, wants_sums};
use std::alloc::{AllocError, Global};
use trace_data::{Kernel, Limit, Sums};

/// What fair servers reserve.
#[derive(Clone, Copy)]
pub enum FairServer {
    /// What a kernel gives them by itself, where it has them.
    Default,
    None,

    /// A runtime in a period.
    Reserves { runtime: u64, period: u64 },

    /// This bandwidth, as a note tells it.
    Bandwidth(u64),
}

/// What options and notes say of a kernel.
#[derive(Clone, Copy)]
pub struct KernelSettings {
    /// A current one where nothing is said.
    pub kernel: Option<Kernel>,

    /// 950000 us in 1000000 us where nothing is said.
    pub limit: Option<Limit>,
    pub fair_server: FairServer,

    /// By the documentation's arithmetic in place of the kernel's.
    pub is_by_documentation: bool,
}

/// The sums of a runqueue at the beginning of a record, as a note has them.
#[derive(Clone, Copy)]
pub struct RunqueueSums {
    pub cpu: u32,
    pub sums: Sums,
}

/// What a record begins with.
#[derive(Drop)]
pub struct RecordStart {
    /// The CPUs of the root domain.
    pub domain: Vec<u32>,
    pub sums: Vec<RunqueueSums>,

    /// The line from which on `extra_bw` is not known: the kernel changes it there by no rule of a task.
    pub open_from: Option<u64>,
}

/// A kernel whose `extra_bw` depends on its boot, of which no note tells.
#[derive(Clone, Copy)]
pub struct NoSums {
    pub kernel: Kernel,
}

/// The part of each processor that SCHED_DEADLINE may have, and its inverse in units of 2^-8.
#[derive(Clone, Copy)]
pub struct Limits {
    pub max_bw: u64,
    pub bw_ratio: u64,
}

/// What is fixed for a record.
#[derive(Clone, Copy)]
pub struct RecordSetup {
    pub law: ChargeLaw,
    pub servers: Servers,

    /// What each fair server reserves, as a bandwidth.
    pub server_bw: u64,

    /// Of the root domain's first processor, and of the others.
    pub first: Limits,
    pub others: Limits,

    /// The root domain's first processor.
    pub first_cpu: u32,

    /// How many processors the root domain has.
    pub cpus: u64,
}

/// The kernel where nothing is said.
const CURRENT: Kernel = Kernel {
    major: 6,
    minor: 18,
    patch: 0,
};

/// The limit where nothing is said, in microseconds.
const DEFAULT_LIMIT: Limit = Limit::Runtime {
    runtime: 950_000,
    period: 1_000_000,
};

/// The limits of a processor (`init_dl_rq_bw_ratio`).
fn limits_of(limit: Limit) -> Limits
    ensures { result ≡ limits_by limit }
{
    match limit {
        Limit::MaxBw(max_bw) => {
            if max_bw == u64::MAX {
                without_limit()
            } else {
                Limits {
                    max_bw,
                    bw_ratio: by_units(max_bw) >> 12,
                }
            }
        }
        Limit::Runtime { runtime, period } => {
            if runtime < 0 {
                without_limit()
            } else {
                Limits {
                    max_bw: ratio(runtime.cast_unsigned(), period),
                    bw_ratio: ratio(period, runtime.cast_unsigned()) >> 12,
                }
            }
        }
    }
}

/// 2^40 by a bandwidth; 0 where there is none.
fn by_units(bw: u64) -> u64
    ensures { result ≡ inverse_of bw }
{
    if bw == 0 { 0 } else { (1 << 40) / bw }
}

/// sched_rt_runtime_us is -1.
fn without_limit() -> Limits
    ensures { result ≡ no_limits }
{
    Limits {
        max_bw: BW_UNIT,
        bw_ratio: 256,
    }
}

/// Whether a kernel has no fair servers.
fn are_absent(servers: Servers) -> bool
    ensures { result ≡ is_absent servers }
{
    match servers {
        Servers::Absent => true,
        Servers::StopWithTimer | Servers::StopAtPick | Servers::StopAtIdle => false,
    }
}

/// Whether fair servers stop when they are picked.
pub(crate) fn picks(servers: Servers) -> bool
    ensures { result ≡ picks_of servers }
{
    match servers {
        Servers::StopAtPick => true,
        Servers::Absent | Servers::StopWithTimer | Servers::StopAtIdle => false,
    }
}

/// Whether fair servers stop with their last fair task.
pub(crate) fn stops_with_timer(servers: Servers) -> bool
    ensures { result ≡ stops_with_timer_of servers }
{
    match servers {
        Servers::StopWithTimer => true,
        Servers::Absent | Servers::StopAtPick | Servers::StopAtIdle => false,
    }
}

/// The bandwidth of a fair server (`fair_server_init`: 50 ms in 1 s).
fn server_bw(server: FairServer, servers: Servers) -> u64
    ensures { result ≡ server_bw_by server servers }
{
    match server {
        FairServer::None => 0,
        FairServer::Reserves { runtime, period } => ratio(runtime, period),
        FairServer::Bandwidth(bw) => bw,
        FairServer::Default => {
            if are_absent(servers) {
                0
            } else {
                ratio(50_000_000, 1_000_000_000)
            }
        }
    }
}

fn law_by(options: KernelSettings, kernel: Kernel) -> ChargeLaw
    ensures { result ≡ law_for options kernel }
{
    if options.is_by_documentation {
        ChargeLaw::Documentation
    } else {
        charge_law(kernel)
    }
}

/// The limits of the processors that are not the root domain's first: before 6.5 a limit that was written after the boot reaches the first
/// one only.
fn other_limits(kernel: Kernel, limits: Limits) -> Limits
    ensures { result ≡ other_limits_by kernel limits }
{
    if release_of(kernel).has_max_bw {
        limits
    } else {
        limits_of(DEFAULT_LIMIT)
    }
}

fn first_cpu(domain: &[u32]) -> u32
    ensures { result ≡ fold min (2 ^ 32 - 1) domain.now }
{
    domain
        .iter()
        .fold(u32::MAX, |first: u32, cpu| first.min(*cpu))
}

/// What is fixed for a record of this kernel that begins so.
fn fixed(options: KernelSettings, start: &RecordStart, kernel: Kernel) -> RecordSetup
    ensures { result ≡ fixed_of options start.now kernel }
{
    let servers = release_of(kernel).servers;
    let first = limits_of(options.limit.unwrap_or(DEFAULT_LIMIT));
    RecordSetup {
        law: law_by(options, kernel),
        servers,
        server_bw: server_bw(options.fair_server, servers),
        first,
        others: other_limits(kernel, first),
        first_cpu: first_cpu(&start.domain),
        cpus: start.domain.len() as u64,
    }
}

/// What is fixed for a record that begins so. NoSums comes where a kernel's sums depend on its boot, and no note tells them.
pub fn setup_of(options: KernelSettings, start: &RecordStart) -> Result<RecordSetup, NoSums>
    ensures { result ≡ setup_by options start.now }
{
    let kernel = options.kernel.unwrap_or(CURRENT);
    if wants_sums(release_of(kernel).servers) && start.sums.len() == 0 {
        return Err(NoSums { kernel });
    }
    Ok(fixed(options, start, kernel))
}

impl RecordSetup {
    /// The limits of a processor.
    pub fn limits(&self, cpu: u32) -> Limits
        ensures { result ≡ limits_at self.now cpu }
    {
        if cpu == self.first_cpu {
            self.first
        } else {
            self.others
        }
    }

    /// Lines that say no more than that a CPU idles bear on its fair server.
    pub fn wants_idle(&self) -> bool
        ensures { result ≡ picks_of self.now.servers }
    {
        picks(self.servers)
    }

    /// Lines of cancelled timers bear on fair servers.
    pub fn wants_cancels(&self) -> bool
        ensures { result ≡ stops_with_timer_of self.now.servers }
    {
        stops_with_timer(self.servers)
    }

    /// `extra_bw` of a processor where only the fair servers were admitted (`__dl_sub`).
    pub fn first_extra_bw(&self, cpu: u32) -> u64
        ensures { result ≡ first_extra_of self.now cpu }
    {
        self.limits(cpu)
            .max_bw
            .wrapping_sub(self.cpus.wrapping_mul(share(self.server_bw, self.cpus)))
    }
}
