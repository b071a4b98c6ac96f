//! The text of a time line, through a buffer that never grows.

ghost use Rattle.std.specs.Prelude.{◌≡◌, ◌+◌, ◌≤◌, ◌++◌, [], All, OnOk, OnErr, length, vec_len, vec_capacity};
ghost use Rattle.std.specs.List.{flat_map};
ghost use Rattle.grub_plan.specs.Plans.{IsAskOf};
ghost use Rattle.text_bytes.specs.Writing.{HandsOn, HandsPart};
ghost use Rattle.grub_views.specs.Lines.{HandsOnTimeline, HandsPartOfTimeline, close_line, close_lines, told_line};

use crate::beside::play_beside;
use crate::line_room::LineRoom;
use crate::rest::play_out;
use grub_book::Reading;
use grub_plan::{Plan, append_answer, append_ask, append_reading};
use grub_timeline::{Playing, ToldEntry};
use std::io;
use std::io::Write;
use std::thread::Threads;
use text_bytes::{LINE_MAX, LineOf, append, append_number, make_room};

/// Plays what is left of a time line of the plan, of which nothing was played yet, and puts its text into the room's buffer, which
/// is written as often as it is full: a line for each entry, and then the closing reading of each runqueue. Entries wait for their
/// lines in the vector, which has room for those of a line, while the next ones are played. It takes no memory.
/// After a failing write, or one that took nothing, a beginning of the buffer's bytes and the text was written.
pub fn write_timeline<R: Threads + Sync, W: Write>(
    rt: &R,
    room: &mut LineRoom,
    out: &mut W,
    plan: &Plan,
    latest: &mut Vec<ToldEntry>,
    mut playing: Playing<'_>,
) -> io::Result<()>
    requires plan { playing.plan ≡ plan.now }
    requires nothing { playing.told ≡ [] }
    requires latest { length plan.now.setup.tasks + 3 ≤ vec_capacity latest.old }
    requires room { LINE_MAX ≤ vec_capacity room.old.buffer }
    ensures whole { OnOk result (HandsOnTimeline plan.now (W.contents out.old)
        (W.contents out.new) room.old.buffer.items room.new.buffer.items) }
    ensures part { OnErr result (HandsPartOfTimeline plan.now
        (W.contents out.old) (W.contents out.new) room.old.buffer.items) }
    ensures room { LINE_MAX ≤ vec_capacity room.new.buffer }
{
    let written = write_played(rt, room, out, plan, latest, &mut playing);
    let closing = playing.close();
    written?;
    write_closing(&mut room.buffer, out, &closing)
}

/// Plays all lines, and puts a line for each entry into the buffer.
fn write_played<R: Threads + Sync, W: Write>(
    rt: &R,
    room: &mut LineRoom,
    out: &mut W,
    plan: &Plan,
    latest: &mut Vec<ToldEntry>,
    playing: &mut Playing<'_>,
) -> io::Result<()>
    requires plan { playing.old.plan ≡ plan.now }
    requires nothing { playing.old.told ≡ [] }
    requires latest { length plan.now.setup.tasks + 3 ≤ vec_capacity latest.old }
    requires room { LINE_MAX ≤ vec_capacity room.old.buffer }
    ensures plan { playing.new.plan ≡ plan.now }
    ensures over { playing.new.left ≡ 0 }
    ensures whole { OnOk result (HandsOn (W.contents out.old)
        (W.contents out.new) room.old.buffer.items
        (flat_map (told_line plan.now.names) playing.new.told) room.new.buffer.items) }
    ensures part { OnErr result (HandsPart (W.contents out.old) (W.contents out.new)
        room.old.buffer.items (flat_map (told_line plan.now.names) playing.new.told)) }
    ensures room { LINE_MAX ≤ vec_capacity room.new.buffer }
{
    let lines = PlanLines { plan };
    let mut more = playing.play_on();
    while more {
        playing.exchange(latest);
        let told = latest.as_slice();
        let mut write = || -> io::Result<()>
            requires fits { All
                (λ x. IsAskOf (length lines.plan.now.setup.tasks) x.entry.ask) told.now }
            requires room { LINE_MAX ≤ vec_capacity room.now.buffer }
            ensures whole { OnOk result (HandsOn (W.contents out.entry.now)
                (W.contents out.exit.now) room.entry.now.buffer.items (flat_map
                (told_line lines.entry.plan.now.names) told.entry.now) room.exit.now.buffer.items) }
            ensures part { OnErr result (HandsPart (W.contents out.entry.now)
                (W.contents out.exit.now) room.entry.now.buffer.items
                (flat_map (told_line lines.entry.plan.now.names) told.entry.now)) }
            ensures room { LINE_MAX ≤ vec_capacity room.exit.now.buffer }
        { room.write_lines(rt, out, told, &lines) };
        let (goes_on, written) = play_beside(rt, playing, told.len(), &mut write);
        if let Err(fault) = written {
            play_out(playing);
            return Err(fault);
        }
        more = goes_on;
    }
    Ok(())
}

/// How the entries of a plan are told.
#[derive(Clone, Copy)]
struct PlanLines<'a> {
    plan: &'a Plan,
}

impl<'a> LineOf<ToldEntry> for PlanLines<'a> {
    ghost fits = { λ lines x. IsAskOf (length lines.plan.now.setup.tasks) x.entry.ask };

    ghost line = { λ lines x. told_line lines.plan.now.names x };

    fn append(&self, out: &mut Vec<u8>, item: &ToldEntry) {
        append_told(out, self.plan, item);
    }
}

#[tactic(auto, unfolding(crate::specs::Lines::told_line))]
fn append_told(out: &mut Vec<u8>, plan: &Plan, x: &ToldEntry)
    requires task { IsAskOf (length plan.now.setup.tasks) x.now.entry.ask }
    requires room { vec_len out.old + LINE_MAX ≤ vec_capacity out.old }
    ensures text { out.new.items ≡ out.old.items ++ told_line plan.now.names x.now }
    ensures len { vec_len out.new ≤ vec_len out.old + LINE_MAX }
    ensures room { vec_capacity out.old ≤ vec_capacity out.new }
{
    append_number(out, b"at ", u64::from(x.entry.m));
    append_number(out, b" on ", u64::from(x.runqueue));
    append(out, b" ");
    append_ask(out, plan, x.entry.ask);
    append(out, b": ");
    append_answer(out, x.entry.answer);
    append(out, b"\n");
}

/// A line for each closing reading, from runqueue 0 on.
fn write_closing<W: Write>(buffer: &mut Vec<u8>, out: &mut W, closing: &[Reading]) -> io::Result<()>
    requires { LINE_MAX ≤ vec_capacity buffer.old }
    ensures whole { OnOk result (HandsOn (W.contents out.old) (W.contents out.new) buffer.old.items
        (close_lines 0 closing.now) buffer.new.items) }
    ensures part { OnErr result (HandsPart (W.contents out.old)
        (W.contents out.new) buffer.old.items (close_lines 0 closing.now)) }
    ensures room { LINE_MAX ≤ vec_capacity buffer.new }
{
    for (r, reading) in closing.iter().enumerate() {
        write_close(buffer, out, r as u64, *reading)?;
    }
    Ok(())
}

fn write_close<W: Write>(
    buffer: &mut Vec<u8>,
    out: &mut W,
    r: u64,
    closing: Reading,
) -> io::Result<()>
    requires { LINE_MAX ≤ vec_capacity buffer.old }
    ensures whole { OnOk result (HandsOn (W.contents out.old) (W.contents out.new) buffer.old.items
        (close_line r closing) buffer.new.items) }
    ensures part { OnErr result (HandsPart (W.contents out.old)
        (W.contents out.new) buffer.old.items (close_line r closing)) }
    ensures room { LINE_MAX ≤ vec_capacity buffer.new }
{
    make_room(buffer, out)?;
    append_close(buffer, r, closing);
    Ok(())
}

fn append_close(out: &mut Vec<u8>, r: u64, closing: Reading)
    requires { vec_len out.old + LINE_MAX ≤ vec_capacity out.old }
    ensures text { out.new.items ≡ out.old.items ++ close_line r closing }
    ensures room { vec_capacity out.old ≤ vec_capacity out.new }
{
    append_number(out, b"close ", r);
    append(out, b" ");
    append_reading(out, closing);
    append(out, b"\n");
}
