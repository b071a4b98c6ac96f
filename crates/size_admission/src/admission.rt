//! Whether a kernel admits reservations, and whether they are kept on several processors together.

ghost use Rattle.std.specs.Prelude.{◌≡◌, ◌≤◌, ◌↔◌, ◌*◌, ◌/◌, ◌^◌, IsTrue};
ghost use Rattle.size_admission.specs.Admission.{IsAdmitted, KeepsDeadlines};
ghost use Rattle.size_admission.specs.Texts.{admits, hundredths_of, keeps};

/// A bandwidth of one.
const UNIT: u64 = 1048576;

/// A reservation that is proposed for a task.
#[derive(Drop)]
pub struct Proposal {
    /// The task's name.
    pub comm: Vec<u8>,

    /// In microseconds.
    pub runtime: u32,

    /// In microseconds.
    pub period: u32,
}

/// What a machine has.
#[derive(Clone, Copy)]
pub struct RootDomain {
    /// How many processors its root domain has.
    pub processors: u32,

    /// What each processor admits, in 1/2^20.
    pub most: u32,

    /// What the fair server of each has of that, in 1/2^20.
    pub fair: u32,
}

/// The bandwidth of a runtime in each period, in 1/2^20, rounded down.
pub fn bandwidth(runtime: u32, period: u32) -> u64
    ensures { result ≡ runtime * 2 ^ 20 / period }
{
    if period == 0 {
        return 0;
    }
    (u64::from(runtime) << 20) / u64::from(period)
}

/// A bandwidth in hundredths of a percent, rounded down.
pub fn hundredths(bandwidth: u64) -> u64
    ensures { result ≡ hundredths_of bandwidth }
{
    bandwidth.saturating_mul(10000) / UNIT
}

/// Whether a root domain admits this sum (the kernel's `sched-deadline.rst`, "Admission of SCHED_DEADLINE tasks").
pub(crate) fn is_admitted(sum: u64, machine: RootDomain) -> bool
    ensures admits { IsTrue result ↔ IsAdmitted sum machine }
    ensures value { result ≡ admits sum machine }
{
    let room = u128::from(machine.most.saturating_sub(machine.fair));
    u128::from(sum) <= room * u128::from(machine.processors)
}

/// Whether global EDF keeps all deadlines of reservations of this sum, of which this is the greatest (Goossens, Funk and Baruah 2003).
pub(crate) fn is_in_time(sum: u64, greatest: u64, machine: RootDomain) -> bool
    ensures keeps { IsTrue result ↔ KeepsDeadlines sum greatest machine }
    ensures value { result ≡ keeps sum greatest machine }
{
    let processors = u128::from(machine.processors);
    let fair = u128::from(machine.fair) * processors;
    let others = processors.saturating_sub(1) * u128::from(greatest);
    u128::from(sum) + fair + others <= processors * 1048576
}
