//! Worked examples of words, both ways.

use grub_book::{Params, Place, Reading, Server, State};
use grub_table::*;
use std::process::Abort;
use std::test::Fail;

/// The task has this word, and the word is this task's.
fn task(rt: &impl Abort, place: Place, claimed: bool, count: u32, word: u64) {
    let value = TaskWord {
        place,
        claimed,
        count,
    };
    assert!(rt; task_fits(value));
    assert_eq!(rt; pack_task(value), word);
    assert_eq!(rt; unpack_task(word), Some(value));
}

#[test]
fn runqueues(rt: HostRuntime) {
    let reading = Reading {
        running: 524288,
        this: 1048576,
    };
    assert!(rt; queue_fits(reading));
    assert_eq!(rt; pack_queue(reading), 4503599627894784);
    assert_eq!(rt; unpack_queue(4503599627894784), Some(reading));

    assert!(rt;
        !queue_fits(Reading {
            running: 1,
            this: 0
        })
    );
    assert_eq!(rt; unpack_queue(1), None);
}

#[test]
fn tasks(rt: HostRuntime) {
    task(&rt, Place::On(0, State::Inactive), true, 0, 11);
    task(&rt, Place::On(5, State::NonContending), false, 3, 12370);
    task(&rt, Place::On(63, State::Contending), false, 0, 1009);
    task(&rt, Place::Away, false, 65536, 268435456);

    // No state 5, no runqueue of a task that is away, no runqueue 64, no bit 36.
    assert_eq!(rt; unpack_task(5), None);
    assert_eq!(rt; unpack_task(16), None);
    assert_eq!(rt; unpack_task(1025), None);
    assert_eq!(rt; unpack_task(68719476736), None);
    let far = TaskWord {
        place: Place::On(64, State::Contending),
        claimed: false,
        count: 0,
    };
    assert!(rt; !task_fits(far));
    let worn = TaskWord {
        place: Place::Away,
        claimed: false,
        count: 16777216,
    };
    assert!(rt; !task_fits(worn));
}

#[test]
fn servers(rt: HostRuntime) {
    let server = Server { q: 2, d: 8 };
    assert!(rt; server_fits(server));
    assert_eq!(rt; pack_server(server), 34359738370);
    assert_eq!(rt; unpack_server(34359738370), Some(server));

    assert!(rt; !server_fits(Server { q: 0, d: 0 }));
    assert_eq!(rt; unpack_server(0), None);
}

#[test]
fn reservations(rt: HostRuntime) -> Result<(), Fail> {
    let params = Params::new(4, 8)?;
    assert_eq!(rt; pack_params(params), 34359738372);
    assert_eq!(rt; unpack_params(34359738372), Some(params));

    assert!(rt; !Params::fits(4, 0));
    assert_eq!(rt; unpack_params(4), None);
    Ok(())
}
