//! Servers: what fair servers are charged, and stop with.

use law_findings::{
    Breach, Finding, JudgedLaws, Law, LineKind, ReadLine, ServerStart, Whose, is_lowered, is_near,
    is_taken_once, is_within, left, nanos_of,
};
use std::alloc::{AllocError, Global};
use trace_data::{IdleCharge, Picked, ServerIdled, ServerStarted, Updated};

/// A server's reservation, in nanoseconds.
#[derive(Clone, Copy)]
struct ServerReservation {
    dl_runtime: u64,
    dl_period: u64,
}

/// A charge of a server.
#[derive(Clone, Copy)]
struct ServerCharge {
    budget: i64,
    deadline: u64,
    nanos: i64,

    /// It is for time in which the CPU was idle.
    is_idle: bool,

    /// Until when, on `clock_task`, where the line is of `put_prev_task_idle`.
    idle_until: Option<u64>,
}

/// A server.
#[derive(Clone, Copy)]
struct Server {
    reservation: Option<ServerReservation>,
    charge: Option<ServerCharge>,

    /// The last start behind that charge.
    start: Option<ServerStart>,
}

/// What a line shows of a server.
#[derive(Clone, Copy)]
struct ShownServer {
    cpu: u32,
    clock: u64,
    budget: i64,
    deadline: u64,
    kind: LineKind,
    idle_until: Option<u64>,
}

const NEW: Server = Server {
    reservation: None,
    charge: None,
    start: None,
};

/// The fair servers by their CPUs.
#[derive(Drop)]
pub struct Servers {
    servers: Vec<Server>,
}

impl Servers {
    /// No server is known.
    pub fn new(alloc: Global) -> Servers {
        Servers {
            servers: Vec::new(alloc),
        }
    }

    fn get_mut(&mut self, cpu: u32) -> Result<Option<&mut Server>, AllocError> {
        for _ in self.servers.len()..cpu as usize + 1 {
            self.servers.push(NEW)?;
        }
        Ok(self.servers.get_mut(cpu as usize))
    }

    fn of(&self, cpu: u32) -> Server {
        self.servers.get(cpu as usize).copied().unwrap_or(NEW)
    }

    /// A line shows the reservation of a CPU's server.
    pub fn see(&mut self, cpu: u32, dl_runtime: u64, dl_period: u64) -> Result<(), AllocError> {
        if dl_runtime > 0
            && let Some(server) = self.get_mut(cpu)?
        {
            server.reservation = Some(ServerReservation {
                dl_runtime,
                dl_period,
            });
        }
        Ok(())
    }

    /// A fair server starts.
    pub fn start(&mut self, line: &ServerStarted) -> Result<(), AllocError> {
        self.see(line.cpu, line.dl_runtime, line.dl_period)?;
        if let Some(server) = self.get_mut(line.cpu)? {
            server.start = Some(ServerStart {
                clock: line.clock,
                dl_runtime: line.dl_runtime,
                dl_period: line.dl_period,
            });
        }
        Ok(())
    }

    /// The reservation of a CPU's server is changed.
    pub fn forget(&mut self, cpu: u32) {
        if let Some(server) = self.servers.get_mut(cpu as usize) {
            *server = NEW;
        }
    }

    /// A fair server is the first of the tree.
    pub fn pick(
        &mut self,
        judged: &mut JudgedLaws,
        read: ReadLine,
        line: &Picked,
    ) -> Result<(), AllocError> {
        let shown = ShownServer {
            cpu: line.cpu,
            clock: line.clock,
            budget: line.runtime,
            deadline: line.deadline,
            kind: LineKind::ServerPick,
            idle_until: None,
        };
        self.show(judged, read, shown, None)
    }

    /// A fair server is charged for a run of its tasks.
    pub fn charge(
        &mut self,
        judged: &mut JudgedLaws,
        read: ReadLine,
        line: &Updated,
    ) -> Result<(), AllocError> {
        let shown = ShownServer {
            cpu: line.cpu,
            clock: line.clock,
            budget: line.budget.runtime,
            deadline: line.budget.deadline,
            kind: LineKind::Update,
            idle_until: None,
        };
        self.show(judged, read, shown, Some(nanos_of(line.ran)))
    }

    /// A fair server is charged for idle time.
    pub fn idle(
        &mut self,
        judged: &mut JudgedLaws,
        read: ReadLine,
        line: &ServerIdled,
    ) -> Result<(), AllocError> {
        if self.is_told(line) {
            return Ok(());
        }
        let shown = ShownServer {
            cpu: line.cpu,
            clock: line.clock,
            budget: line.runtime,
            deadline: line.deadline,
            kind: LineKind::ServerIdle,
            idle_until: match line.charge {
                IdleCharge::EndOfIdle => Some(line.now),
                IdleCharge::Update => None,
            },
        };
        let nanos = line.now.wrapping_sub(line.start).cast_signed();
        self.show(judged, read, shown, Some(nanos))
    }

    /// Whether `put_prev_task_idle` has told of this charge: where it is not inlined, `dl_server_update_idle_time` is called by it, and
    /// has a line too.
    fn is_told(&self, line: &ServerIdled) -> bool {
        match (line.charge, self.of(line.cpu).charge) {
            (IdleCharge::Update, Some(charge)) => {
                charge.idle_until == Some(line.now)
                    && charge.budget == line.runtime
                    && charge.deadline == line.deadline
            }
            _ => false,
        }
    }

    /// A line shows a server; `nanos` of a charge.
    fn show(
        &mut self,
        judged: &mut JudgedLaws,
        read: ReadLine,
        shown: ShownServer,
        nanos: Option<i64>,
    ) -> Result<(), AllocError> {
        let server = self.of(shown.cpu);
        if let Some(reservation) = server.reservation {
            judge_reservation(judged, read, shown, reservation)?;
        }
        if let Some(charge) = server.charge
            && charge.deadline == shown.deadline
        {
            judge_charge(judged, read, shown, charge, server.start)?;
        }
        if let Some(server) = self.get_mut(shown.cpu)? {
            server.start = None;
            server.charge = match nanos {
                Some(nanos) if nanos != 0 => Some(ServerCharge {
                    budget: shown.budget,
                    deadline: shown.deadline,
                    nanos,
                    is_idle: shown.kind == LineKind::ServerIdle,
                    idle_until: shown.idle_until,
                }),
                _ => None,
            };
        }
        Ok(())
    }
}

fn judge_reservation(
    judged: &mut JudgedLaws,
    read: ReadLine,
    shown: ShownServer,
    reservation: ServerReservation,
) -> Result<(), AllocError> {
    let ServerReservation {
        dl_runtime,
        dl_period,
    } = reservation;
    let much = Finding::TooMuchBudget {
        budget: shown.budget,
        dl_runtime,
    };
    judge_server(
        judged,
        read,
        shown,
        is_within(shown.budget, dl_runtime),
        much,
    )?;
    let is_right = is_near(shown.deadline, shown.clock, dl_runtime, dl_period);
    let far = Finding::FarDeadline {
        ahead: shown.deadline.saturating_sub(shown.clock),
    };
    judge_server(judged, read, shown, is_right, far)
}

/// Whether a charge has left this budget, or a start behind it.
fn is_what_is_left(shown: ShownServer, charge: ServerCharge, start: Option<ServerStart>) -> bool {
    if is_taken_once(charge.budget, charge.nanos, charge.is_idle, shown.budget) {
        return true;
    }
    let left = left(charge.is_idle, charge.budget, charge.nanos);
    is_lowered(start, shown.deadline, left, shown.budget)
}

/// The line behind a charge under the same deadline shows what it left, or what a start since then has lowered it to.
fn judge_charge(
    judged: &mut JudgedLaws,
    read: ReadLine,
    shown: ShownServer,
    charge: ServerCharge,
    start: Option<ServerStart>,
) -> Result<(), AllocError> {
    let is_right = is_what_is_left(shown, charge, start);
    let other = Finding::OtherCharge {
        nanos: charge.nanos,
        before: charge.budget,
        after: shown.budget,
    };
    judge_server(judged, read, shown, is_right, other)
}

fn judge_server(
    judged: &mut JudgedLaws,
    read: ReadLine,
    shown: ShownServer,
    is_right: bool,
    finding: Finding,
) -> Result<(), AllocError> {
    if is_right {
        judged.holds(Law::Server);
        return Ok(());
    }
    judged.breaks(Breach {
        law: Law::Server,
        place: read.place(shown.kind),
        whose: Whose::Server { cpu: shown.cpu },
        finding,
        sign: None,
    })
}
