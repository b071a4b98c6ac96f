//! The worked numbers of bandwidths, servers and charges.

use grub_book::*;
use std::alloc::{AllocError, Global};
use std::fmt::Display;
use std::test::Fail;

fn server(q: u32, d: u32) -> Server {
    Server { q, d }
}

/// Whether a reservation is taken, and has this bandwidth.
fn has_bw(runtime: u32, period: u32, bw: u32) -> bool {
    match Params::new(runtime, period) {
        Ok(params) => params.bw() == bw,
        Err(_) => false,
    }
}

/// Whether a queue is taken, and gives at most this bandwidth.
fn has_umax(umax: u32, uextra: u32, most: u32) -> bool {
    match Queue::new(umax, uextra) {
        Ok(queue) => queue.umax() == most,
        Err(_) => false,
    }
}

#[test]
fn reservations(rt: HostRuntime) {
    for (runtime, period, fault) in [
        (1, 0, ParamFault::PeriodOutOfRange),
        (0, 8, ParamFault::RuntimeOutOfRange),
        (9, 8, ParamFault::RuntimeOutOfRange),
        (1, 16777216, ParamFault::TooSmall),
        (1, 16777217, ParamFault::PeriodOutOfRange),
    ] {
        assert!(rt;
            Params::new(runtime, period) == Err(fault),
            "{runtime} {period}"
        );
    }
    assert!(rt; has_bw(16, 16777216, 1));
    assert!(rt; Params::fits(16, 16777216) && !Params::fits(1, 16777216));
    for (umax, uextra, fault) in [
        (0, 0, QueueFault::UmaxOutOfRange),
        (1048577, 0, QueueFault::UmaxOutOfRange),
        (5, 6, QueueFault::UextraOutOfRange),
    ] {
        assert!(rt; Queue::new(umax, uextra) == Err(fault), "{umax} {uextra}");
    }
    assert!(rt; has_umax(5, 5, 5));
}

/// Whether a server of a reservation that is woken at 4 is the first of these, and woken at 5 the second.
fn is_woken(start: Server, params: Params, at_4: Server, at_5: Server) -> bool {
    start.fits(params) && woken(start, params, 4) == at_4 && woken(start, params, 5) == at_5
}

/// Whether a server of a reservation is depleted so by a charge.
fn is_depleted(start: Server, params: Params, dq: u64, end: Option<(u32, Server)>) -> bool {
    start.fits(params) && deplete(start, params, dq) == end
}

#[test]
fn servers(rt: HostRuntime) -> Result<(), Fail> {
    let half = Params::new(4, 8)?;
    let third = Params::new(3, 10)?;
    assert_eq!(rt; half.bw(), 524288);
    let start = server(2, 10);
    assert!(rt; start.fits(third) && zero_lag(start, third) == 4);
    let start = server(2, 8);
    assert!(rt; is_woken(start, half, start, server(4, 13)));
    for (start, dq, end) in [
        (start, 10, Some((3, server(4, 32)))),
        (server(1, 4294967290), 1, None),
        (server(1, 4294967287), 1, Some((1, server(4, 4294967295)))),
    ] {
        assert!(rt; is_depleted(start, half, dq, end), "{dq}");
    }
    Ok(())
}

#[test]
fn charges(rt: HostRuntime) -> Result<(), Fail> {
    let spare = Queue::new(996147, 200000)?;
    assert_eq!(rt; charge(1000, 262144, spare, 262144, 262144), 799);
    let full = Queue::new(1048576, 800000)?;
    assert_eq!(rt; charge(8, 524288, full, 524288, 1048576), 4);
    assert_eq!(rt; charge(1, 524288, full, 524288, 1048576), 0);
    Ok(())
}

/// Whether a fault is printed so.
fn is_printed<F: Display>(alloc: Global, fault: &F, text: &str) -> Result<bool, AllocError> {
    let printed = format!(in alloc; "{fault}")?;
    Ok(printed.as_str() == text)
}

#[test]
fn fault_texts(rt: HostRuntime) -> Result<(), Fail> {
    for (fault, text) in [
        (ParamFault::PeriodOutOfRange, "1 PeriodOutOfRange"),
        (ParamFault::RuntimeOutOfRange, "2 RuntimeOutOfRange"),
        (ParamFault::TooSmall, "3 TooSmall"),
    ] {
        assert!(rt; is_printed(rt.alloc(), &fault, text)?, "{text}");
    }
    for (fault, text) in [
        (QueueFault::UmaxOutOfRange, "4 UmaxOutOfRange"),
        (QueueFault::UextraOutOfRange, "5 UextraOutOfRange"),
    ] {
        assert!(rt; is_printed(rt.alloc(), &fault, text)?, "{text}");
    }
    Ok(())
}
