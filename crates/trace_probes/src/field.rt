//! Names of fields in lines of probes.

ghost use Rattle.std.specs.Prelude.{◌≡◌, ◌<◌};
ghost use Rattle.trace_probes.specs.Fields.{key_of, kind_of, place_of};

/// How many fields there are.
pub const FIELDS: usize = 50;

/// A field of a line.
#[derive(Clone, Copy)]
pub enum Field {
    /// `pid`: the task.
    Pid,

    /// `cpu`: the CPU whose runqueue the function works on.
    Cpu,

    /// `fl`: ENQUEUE_ or DEQUEUE_ flags.
    Flags,

    /// `clk`: rq->clock.
    Clock,

    /// `q`: runtime: what is left of the budget.
    Runtime,

    /// `d`: deadline.
    Deadline,

    /// `thr`: dl_throttled.
    Throttled,

    /// `yld`: dl_yielded.
    Yielded,

    /// `non`: dl_non_contending.
    NonContending,

    /// `rt`: dl_runtime.
    DlRuntime,

    /// `dl`: dl_deadline.
    DlDeadline,

    /// `pe`: dl_period.
    DlPeriod,

    /// `sf`: flags.
    SchedFlags,

    /// `oq`: on_rq.
    OnRq,

    /// `np`: normal_prio.
    NormalPrio,

    /// `se`: the task's own sched_dl_entity.
    Entity,

    /// `ps`: pi_se.
    ServedBy,

    /// `prt`: dl_runtime of pi_se.
    DonorRuntime,

    /// `pdl`: dl_deadline of pi_se.
    DonorDeadline,

    /// `ppe`: dl_period of pi_se.
    DonorPeriod,

    /// `th`: this_bw.
    ThisBw,

    /// `ru`: running_bw.
    RunningBw,

    /// `ex`: extra_bw.
    ExtraBw,

    /// `mx`: max_bw.
    MaxBw,

    /// `ra`: bw_ratio.
    BwRatio,

    /// `dx`: delta_exec.
    DeltaExec,

    /// `ct`: clock_task.
    ClockTask,

    /// `es`: exec_start.
    ExecStart,

    /// `st`: __state.
    State,

    /// `cur`: the task that runs on the CPU.
    Current,

    /// `was`: policy before.
    PolicyBefore,

    /// `po`: policy wanted.
    PolicyWanted,

    /// `del`: sched_delayed.
    Delayed,

    /// `tot`: total_bw of the root domain.
    TotalBw,

    /// `cap`: dl_bw.bw of the root domain.
    DomainBw,

    /// `timer`: an hrtimer.
    Timer,

    /// `tim`: when it expires, from now.
    FromNow,

    /// `exp`: when it expires.
    Expires,

    /// `fn`: its function.
    Function,

    /// `srv`: dl_server.
    Server,

    /// `nr`: how many fair tasks are runnable.
    FairTasks,

    /// `ea`: the deadline of the first entity in the tree.
    Earliest,

    /// `act`: dl_server_active.
    Active,

    /// `srv` of a charge: dl_server; older records do not show it.
    IsServer,

    /// `mx` where kernels before 6.5 do not have it.
    MaxBwShown,

    /// `fs`: arch_freq_scale, where the record shows it.
    FrequencyScale,

    /// `cs`: cpu_scale, where the record shows it.
    CpuScale,

    /// `ps` of a timer: pi_se of its entity, where the record shows it.
    TimerServedBy,

    /// `rd`: a root domain.
    RootDomain,

    /// `write`: whether a sysctl is written.
    Write,
}

/// What the value of a field is.
#[derive(Clone, Copy)]
pub enum FieldKind {
    /// A number from 0 on.
    Unsigned,

    /// A number that may be below 0.
    Signed,

    /// 0 or 1.
    Flag,

    /// A function's name.
    Function,

    /// A number from 0 on, which a line may lack.
    Optional,
}

/// What stands before a field's value.
pub(crate) fn key_of(field: Field) -> &'static [u8]
    ensures { result.now ≡ key_of field }
{
    match field {
        Field::Pid => b"pid=",
        Field::Cpu => b"cpu=",
        Field::Flags => b"fl=",
        Field::Clock => b"clk=",
        Field::Runtime => b"q=",
        Field::Deadline => b"d=",
        Field::Throttled => b"thr=",
        Field::Yielded => b"yld=",
        Field::NonContending => b"non=",
        Field::DlRuntime => b"rt=",
        Field::DlDeadline => b"dl=",
        Field::DlPeriod => b"pe=",
        Field::SchedFlags => b"sf=",
        Field::OnRq => b"oq=",
        Field::NormalPrio => b"np=",
        Field::Entity => b"se=",
        Field::ServedBy => b"ps=",
        Field::DonorRuntime => b"prt=",
        Field::DonorDeadline => b"pdl=",
        Field::DonorPeriod => b"ppe=",
        Field::ThisBw => b"th=",
        Field::RunningBw => b"ru=",
        Field::ExtraBw => b"ex=",
        Field::MaxBw => b"mx=",
        Field::BwRatio => b"ra=",
        Field::DeltaExec => b"dx=",
        Field::ClockTask => b"ct=",
        Field::ExecStart => b"es=",
        Field::State => b"st=",
        Field::Current => b"cur=",
        Field::PolicyBefore => b"was=",
        Field::PolicyWanted => b"po=",
        Field::Delayed => b"del=",
        Field::TotalBw => b"tot=",
        Field::DomainBw => b"cap=",
        Field::Timer => b"timer=",
        Field::FromNow => b"tim=",
        Field::Expires => b"exp=",
        Field::Function => b"fn=",
        Field::Server => b"srv=",
        Field::FairTasks => b"nr=",
        Field::Earliest => b"ea=",
        Field::Active => b"act=",
        Field::IsServer => b"srv=",
        Field::MaxBwShown => b"mx=",
        Field::FrequencyScale => b"fs=",
        Field::CpuScale => b"cs=",
        Field::TimerServedBy => b"ps=",
        Field::RootDomain => b"rd=",
        Field::Write => b"write=",
    }
}

pub(crate) fn kind_of(field: Field) -> FieldKind
    ensures { result ≡ kind_of field }
{
    match field {
        Field::Runtime | Field::NormalPrio | Field::DeltaExec | Field::FromNow | Field::Expires =>
            FieldKind::Signed,
        Field::Throttled
        | Field::Yielded
        | Field::NonContending
        | Field::Delayed
        | Field::Server
        | Field::Active
        | Field::Write => FieldKind::Flag,
        Field::Function => FieldKind::Function,
        Field::IsServer
        | Field::MaxBwShown
        | Field::FrequencyScale
        | Field::CpuScale
        | Field::TimerServedBy => FieldKind::Optional,
        _ => FieldKind::Unsigned,
    }
}

/// Where the value of a field lies among all.
pub(crate) fn place_of(field: Field) -> usize
    ensures place { result ≡ place_of field }
    ensures within { result < FIELDS }
{
    match field {
        Field::Pid => 0,
        Field::Cpu => 1,
        Field::Flags => 2,
        Field::Clock => 3,
        Field::Runtime => 4,
        Field::Deadline => 5,
        Field::Throttled => 6,
        Field::Yielded => 7,
        Field::NonContending => 8,
        Field::DlRuntime => 9,
        Field::DlDeadline => 10,
        Field::DlPeriod => 11,
        Field::SchedFlags => 12,
        Field::OnRq => 13,
        Field::NormalPrio => 14,
        Field::Entity => 15,
        Field::ServedBy => 16,
        Field::DonorRuntime => 17,
        Field::DonorDeadline => 18,
        Field::DonorPeriod => 19,
        Field::ThisBw => 20,
        Field::RunningBw => 21,
        Field::ExtraBw => 22,
        Field::MaxBw => 23,
        Field::BwRatio => 24,
        Field::DeltaExec => 25,
        Field::ClockTask => 26,
        Field::ExecStart => 27,
        Field::State => 28,
        Field::Current => 29,
        Field::PolicyBefore => 30,
        Field::PolicyWanted => 31,
        Field::Delayed => 32,
        Field::TotalBw => 33,
        Field::DomainBw => 34,
        Field::Timer => 35,
        Field::FromNow => 36,
        Field::Expires => 37,
        Field::Function => 38,
        Field::Server => 39,
        Field::FairTasks => 40,
        Field::Earliest => 41,
        Field::Active => 42,
        Field::IsServer => 43,
        Field::MaxBwShown => 44,
        Field::FrequencyScale => 45,
        Field::CpuScale => 46,
        Field::TimerServedBy => 47,
        Field::RootDomain => 48,
        Field::Write => 49,
    }
}
