//! What options and notes say of the kernel that was recorded.

ghost use Rattle.std.specs.Prelude.{◌≡◌, ◌++◌, IfOk, None, OnOk, false, option_map};
ghost use Rattle.std.specs.List.{list_any};
ghost use Rattle.check_settings.specs.Heads.{bandwidth_by, chosen, cpus_from, domain_by, first_server, has_servers_by, is_documented, is_in_range, is_note_of, is_of_domain, is_older_by, kernel_by, lacks_cpu, last_by, law_by, law_settings_by, listed_in, max_bw_by, max_bw_in, nothing_told, open_from, opened_by, release_by, server_by, server_note, settings_by, tells_cpus, told_of};
ghost use Rattle.trace_options.specs.Words.{domain_in};

use kernel_rules::{BW_UNIT, ChargeLaw, charge_law, has_servers, ratio};
use probe_findings::{LawSettings, ServerNote};
use probe_start::{CpuNote, StartNotes, note_of, put_note};
use std::alloc::{AllocError, Global};
use timer_play::{FairServer, KernelSettings, RecordStart, RunqueueSums};
use trace_data::{Kernel, Limit, Policy, RecordLine, ServerReservation, Sums, TraceNote};
use trace_options::{Arithmetic, CheckOptions, CpuRange, FairServerOption, domain_of};

/// What notes and the head of a trace say.
#[derive(Drop)]
pub struct RecordHead {
    pub kernel: Option<Kernel>,

    /// Its whole release; empty where no note tells it.
    pub release: Vec<u8>,
    pub limit: Option<Limit>,

    /// Modulo 2^64.
    pub total_bw: Option<u64>,

    /// The CPUs of the root domain by its note; empty where there is none.
    pub domain: Vec<u32>,

    /// The N of the first `#P:N`.
    pub processors: Option<u32>,

    /// The greatest CPU that a line names.
    pub greatest_cpu: u32,
    pub sums: Vec<RunqueueSums>,

    /// What notes say of the fair server of each CPU, and of its root domain and its capacity.
    pub servers: Vec<ServerNote>,
    pub cpus: Vec<CpuNote>,

    /// A note or an event tells that something sets the frequency of a CPU.
    pub has_governor: bool,

    /// The first line that shows that `extra_bw` is not known any more.
    pub opening: Option<SumsOpened>,
}

/// What shows that `extra_bw` changes by no rule of a task whose reservation is known.
#[derive(Clone, Copy)]
pub enum OpeningSign {
    /// A line of a function that does so, or may.
    Mark,

    /// A CPU goes or comes: its thread of CPU hotplug wakes.
    Hotplug { cpu: u32 },

    /// A CPU came: a line is of a CPU that the head lacks.
    NewCpu { cpu: u32 },

    /// A task is in the class though its notes put it outside: what it reserves is not known.
    LateNote { pid: u64 },
}

/// From which line on `extra_bw` is not known, and by what.
#[derive(Clone, Copy)]
pub struct SumsOpened {
    pub line: u64,
    pub sign: OpeningSign,
}

impl RecordHead {
    pub fn new(alloc: Global) -> RecordHead
        ensures told { told_of result ≡ nothing_told }
        ensures kernel { result.kernel ≡ None }
        ensures opening { result.opening ≡ None }
        ensures governor { result.has_governor ≡ false }
    {
        RecordHead {
            kernel: None,
            release: Vec::new(alloc),
            limit: None,
            total_bw: None,
            domain: Vec::new(alloc),
            processors: None,
            greatest_cpu: 0,
            sums: Vec::new(alloc),
            servers: Vec::new(alloc),
            cpus: Vec::new(alloc),
            has_governor: false,
            opening: None,
        }
    }

    /// The kernel: an option stands above a note.
    pub fn kernel_by(&self, options: &CheckOptions<'_>) -> Option<Kernel>
        ensures { result ≡ kernel_by self.now options.now }
    {
        match options.kernel {
            Some(kernel) => Some(kernel),
            None => self.kernel,
        }
    }

    /// The whole release that a note tells; none where an option names the kernel.
    pub fn release_by(&self, options: &CheckOptions<'_>) -> Option<&[u8]>
        ensures { option_map (λ r. r.now) result ≡ release_by self.now options.now }
    {
        if options.kernel.is_some() || self.release.is_empty() {
            None
        } else {
            Some(self.release.as_slice())
        }
    }

    /// What the model of timers is told of the kernel.
    pub fn kernels(&self, options: &CheckOptions<'_>) -> KernelSettings
        ensures { result ≡ settings_by self.now options.now }
    {
        KernelSettings {
            kernel: self.kernel_by(options),
            limit: self.limit_by(options),
            fair_server: server_of(options.fair, self.first_server()),
            is_by_documentation: is_documented(options.arithmetic),
        }
    }

    /// The bandwidth of the fair server that the first CPU's note tells.
    fn first_server(&self) -> Option<u64>
        ensures { result ≡ first_server self.now.servers.items }
    {
        match self.servers.get(0) {
            Some(note) => note.server,
            None => None,
        }
    }

    fn limit_by(&self, options: &CheckOptions<'_>) -> Option<Limit>
        ensures { result ≡ chosen options.now.limit self.now.limit }
    {
        match options.limit {
            Some(limit) => Some(limit),
            None => self.limit,
        }
    }

    /// Whose arithmetic lines of probes are played by.
    pub fn law(&self, options: &CheckOptions<'_>) -> ChargeLaw
        ensures { result ≡ law_by self.now options.now }
    {
        if is_documented(options.arithmetic) {
            return ChargeLaw::Documentation;
        }
        match self.kernel_by(options) {
            Some(kernel) => charge_law(kernel),
            None => ChargeLaw::LinuxFrom65,
        }
    }

    /// Whether the kernel has fair servers.
    fn has_servers(&self, options: &CheckOptions<'_>) -> bool
        ensures { result ≡ has_servers_by (kernel_by self.now options.now) }
    {
        match self.kernel_by(options) {
            Some(kernel) => has_servers(kernel),
            None => false,
        }
    }

    /// What the laws of lines of probes are held against: an option stands above the lines. `has_older`: a note tells of a task that
    /// was there at the start.
    pub fn law_settings(&self, options: &CheckOptions<'_>, has_older: bool) -> LawSettings
        ensures { result ≡ law_settings_by self.now options.now has_older }
    {
        LawSettings {
            has_servers: self.has_servers(options),
            server_bw: bandwidth_of(options.fair),
            limit: max_bw_given(options.limit),
            has_older,
        }
    }

    /// The CPUs of the root domain: by an option, a note, the head of the trace, or the greatest CPU that a line names.
    pub fn cpus(&self, alloc: Global, options: &CheckOptions<'_>) -> Result<Vec<u32>, AllocError>
        ensures { IfOk result (λ v. v.items ≡ domain_by self.now options.now) }
    {
        if !options.domain.is_empty() {
            return listed(alloc, &options.domain);
        }
        let mut cpus = Vec::new(alloc);
        if self.domain.is_empty() {
            push_range(&mut cpus, 0, self.last_cpu())?;
        } else {
            cpus.extend_from_slice(self.domain.as_slice())?;
        }
        Ok(cpus)
    }

    /// Whether a CPU is of the root domain that an option or a note lists; each is where none does.
    pub fn has_cpu(&self, options: &CheckOptions<'_>, cpu: u32) -> bool
        ensures { result ≡ is_of_domain self.now options.now cpu }
    {
        if options.domain.is_empty() {
            self.domain.is_empty() || self.domain.contains(&cpu)
        } else {
            is_listed(&options.domain, cpu)
        }
    }

    /// The line from which on `extra_bw` is not known.
    pub fn open_from(&self) -> Option<u64>
        ensures { result ≡ open_from self.now.opening }
    {
        match self.opening {
            Some(opening) => Some(opening.line),
            None => None,
        }
    }

    /// A line shows that `extra_bw` changes by no rule of a task whose reservation is known: the first such line counts.
    pub fn see_sign(&mut self, line: u64, sign: OpeningSign)
        ensures opening { self.new.opening ≡ opened_by self.old.opening line sign }
        ensures told { told_of self.new ≡ told_of self.old }
        ensures kernel { self.new.kernel ≡ self.old.kernel }
        ensures governor { self.new.has_governor ≡ self.old.has_governor }
    {
        if self.opening.is_none() {
            self.opening = Some(SumsOpened { line, sign });
        }
    }

    /// Whether the head tells of CPUs, but not of this one: it is in no list, has no note, and is beyond the number of processors.
    pub fn lacks(&self, options: &CheckOptions<'_>, cpu: u32) -> bool
        ensures { result ≡ lacks_cpu (told_of self.now) options.now cpu }
    {
        self.tells_cpus()
            && !is_listed(&options.domain, cpu)
            && !self.domain.contains(&cpu)
            && !has_note(&self.sums, cpu)
            && cpu >= self.processors.unwrap_or(0)
    }

    /// Whether the head lists CPUs, or says how many there are.
    fn tells_cpus(&self) -> bool
        ensures { result ≡ tells_cpus (told_of self.now) }
    {
        self.processors.is_some() || !self.domain.is_empty()
    }

    fn last_cpu(&self) -> u32
        ensures { result ≡ last_by self.now.processors self.now.greatest_cpu }
    {
        match self.processors {
            Some(count) => count.saturating_sub(1),
            None => self.greatest_cpu,
        }
    }

    /// What the model of timers begins with.
    pub fn start(
        &self,
        alloc: Global,
        options: &CheckOptions<'_>,
    ) -> Result<RecordStart, AllocError>
        ensures domain { IfOk result (λ s. s.domain.items ≡ domain_by self.now options.now) }
        ensures sums { IfOk result (λ s. s.sums.items ≡ self.now.sums.items) }
        ensures unknown { IfOk result (λ s. s.open_from ≡ open_from self.now.opening) }
    {
        let domain = self.cpus(alloc, options)?;
        let mut sums = Vec::new(alloc);
        sums.extend_from_slice(self.sums.as_slice())?;
        Ok(RecordStart {
            domain,
            sums,
            open_from: self.open_from(),
        })
    }
}

impl RecordHead {
    /// Keeps the root domain that a note tells of a CPU.
    pub fn see_domain(&mut self, cpu: u32, domain: Option<u64>) -> Result<(), AllocError>
        ensures told { OnOk result (told_of self.new ≡ told_of self.old) }
        ensures opening { self.new.opening ≡ self.old.opening }
        ensures governor { self.new.has_governor ≡ self.old.has_governor }
    {
        let noted = note_of(&self.cpus, cpu);
        put_note(&mut self.cpus, CpuNote { domain, ..noted })
    }

    /// Keeps the capacity of a CPU.
    pub fn see_capacity(&mut self, cpu: u32, capacity: u64) -> Result<(), AllocError>
        ensures told { OnOk result (told_of self.new ≡ told_of self.old) }
        ensures opening { self.new.opening ≡ self.old.opening }
        ensures governor { self.new.has_governor ≡ self.old.has_governor }
    {
        let noted = note_of(&self.cpus, cpu);
        put_note(
            &mut self.cpus,
            CpuNote {
                capacity: Some(capacity),
                ..noted
            },
        )
    }

    /// What is known before the first line of a probe: the root domains of notes, where no option lists one.
    pub fn start_notes(
        &self,
        alloc: Global,
        options: &CheckOptions<'_>,
        has_older: bool,
    ) -> Result<StartNotes, AllocError>
        ensures settings { IfOk result (λ n. n.settings
            ≡ law_settings_by self.now options.now has_older) }
        ensures servers { IfOk result (λ n. n.servers.items ≡ self.now.servers.items) }
    {
        let mut cpus = Vec::new(alloc);
        let follows_notes = options.domain.is_empty()
            && self.cpus.iter().any(|one| one.domain.is_some());
        for note in &self.cpus {
            let domain = if follows_notes { note.domain } else { None };
            put_note(&mut cpus, CpuNote { domain, ..*note })?;
        }
        if !follows_notes {
            for cpu in &self.cpus(alloc, options)? {
                let noted = note_of(&cpus, *cpu);
                put_note(
                    &mut cpus,
                    CpuNote {
                        domain: Some(0),
                        ..noted
                    },
                )?;
            }
        }
        let mut servers = Vec::new(alloc);
        servers.extend_from_slice(self.servers.as_slice())?;
        Ok(StartNotes {
            settings: self.law_settings(options, has_older),
            servers,
            cpus,
        })
    }
}

/// Appends the CPUs from `first` to `last`.
#[tactic(auto, using(crate::proofs::HeadLemmas::numbers_none))]
fn push_range(cpus: &mut Vec<u32>, first: u32, last: u32) -> Result<(), AllocError>
    ensures { OnOk result (cpus.new.items ≡ cpus.old.items ++ cpus_from first last) }
{
    for cpu in first..last.saturating_add(1) {
        cpus.push(cpu)?;
    }
    Ok(())
}

/// The CPUs of a list as `0-3,8`; none where it is no such list.
pub fn cpus_of(alloc: Global, text: &[u8]) -> Result<Option<Vec<u32>>, AllocError>
    ensures { IfOk result (λ made. option_map (λ v. v.items) made
        ≡ option_map listed_in (domain_in text.now)) }
{
    match domain_of(alloc, text)? {
        Some(ranges) => Ok(Some(listed(alloc, &ranges)?)),
        None => Ok(None),
    }
}

/// The CPUs of ranges, one by one.
fn listed(alloc: Global, ranges: &[CpuRange]) -> Result<Vec<u32>, AllocError>
    ensures { IfOk result (λ v. v.items ≡ listed_in ranges.now) }
{
    let mut cpus = Vec::new(alloc);
    for range in ranges {
        push_range(&mut cpus, range.first, range.last)?;
    }
    Ok(cpus)
}

/// Whether a CPU has a note of its own.
fn has_note(notes: &[RunqueueSums], cpu: u32) -> bool
    ensures { result ≡ list_any (is_note_of cpu) notes.now }
{
    notes.iter().any(|note| note.cpu == cpu)
}

fn is_listed(ranges: &[CpuRange], cpu: u32) -> bool
    ensures { result ≡ list_any (is_in_range cpu) ranges.now }
{
    ranges
        .iter()
        .any(|range| range.first <= cpu && cpu <= range.last)
}

fn is_documented(arithmetic: Arithmetic) -> bool
    ensures { result ≡ is_documented arithmetic }
{
    match arithmetic {
        Arithmetic::Kernel => false,
        Arithmetic::Documentation => true,
    }
}

/// The fair server of timers' rules: by an option, else by a note, else as the kernel begins.
fn server_of(fair: FairServerOption, noted: Option<u64>) -> FairServer
    ensures { result ≡ server_by fair noted }
{
    match fair {
        FairServerOption::Usual => match noted {
            Some(bw) => FairServer::Bandwidth(bw),
            None => FairServer::Default,
        },
        FairServerOption::Absent => FairServer::None,
        FairServerOption::Reserves {
            dl_runtime,
            dl_period,
        } => FairServer::Reserves {
            runtime: dl_runtime,
            period: dl_period,
        },
    }
}

/// The bandwidth of each fair server that an option gives.
fn bandwidth_of(fair: FairServerOption) -> Option<u64>
    ensures { result ≡ bandwidth_by fair }
{
    match fair {
        FairServerOption::Usual => None,
        FairServerOption::Absent => Some(0),
        FairServerOption::Reserves {
            dl_runtime,
            dl_period,
        } => Some(ratio(dl_runtime, dl_period)),
    }
}

/// What a note says of the fair server of a CPU.
pub fn server_note(cpu: u32, sums: Sums, server: Option<ServerReservation>) -> ServerNote
    ensures { result ≡ server_note cpu sums server }
{
    ServerNote {
        cpu,
        server: match server {
            Some(server) => Some(ratio(server.dl_runtime, server.dl_period)),
            None => None,
        },
        this_bw: sums.this_bw,
    }
}

/// `max_bw` of a limit (`init_dl_rq_bw_ratio`).
fn max_bw_of(limit: Limit) -> u64
    ensures { result ≡ max_bw_in limit }
{
    match limit {
        Limit::MaxBw(max_bw) => max_bw.min(BW_UNIT),
        Limit::Runtime { runtime, period } => {
            if runtime < 0 {
                BW_UNIT
            } else {
                ratio(runtime.cast_unsigned(), period)
            }
        }
    }
}

/// `max_bw` where an option gives a limit.
fn max_bw_given(limit: Option<Limit>) -> Option<u64>
    ensures { result ≡ max_bw_by limit }
{
    match limit {
        Some(limit) => Some(max_bw_of(limit)),
        None => None,
    }
}

/// Whether a note tells of a task that was in the class at the start; threads of schedutil are not of it.
pub fn is_older(line: &RecordLine, comm: &[u8]) -> bool
    ensures { result ≡ is_older_by line.now comm.now }
{
    let is_there = matches!(
        line,
        RecordLine::Note(TraceNote::Task {
            at: None,
            policy: Policy::Deadline(_),
            ..
        })
    );
    is_there && !comm.starts_with(b"sugov:")
}
