//! The report of a runqueue, on its way to a writer.

ghost use Rattle.std.specs.Prelude.{◌≤◌, All, length, OnOk, OnErr, vec_capacity};
ghost use Rattle.grub_plan.specs.Plans.{IsAskOf};
ghost use Rattle.grub_plan.specs.Texts.{head_line, close_line, report_text};
ghost use Rattle.text_bytes.specs.Writing.{HandsOn, HandsPart};

use grub_book::Reading;
use grub_plan::{Plan, Report, append_close, append_head};
use grub_views::LineRoom;
use std::io;
use std::io::Write;
use std::thread::Threads;
use text_bytes::{LINE_MAX, make_room};

/// What a run tells of a runqueue: its number, the report of its file, and its closing reading.
#[derive(Clone, Copy)]
pub struct QueueReport<'a> {
    pub r: u32,
    pub report: &'a Report,
    pub closing: Reading,
}

/// Writes the report of a runqueue after what the buffer keeps, but for what it keeps then: the runqueue's number, a line
/// for each entry, and the closing reading. The entries' tasks are to be the plan's. It takes no memory.
/// After a failing write, or one that took nothing, a beginning of the buffer's bytes and the report was written.
pub(crate) fn write_report<R: Threads + Sync, W: Write>(
    rt: &R,
    room: &mut LineRoom,
    out: &mut W,
    plan: &Plan,
    queue: QueueReport<'_>,
) -> io::Result<()>
    requires tasks { All
        (λ e. IsAskOf (length plan.now.setup.tasks) e.ask) queue.report.now.entries.items }
    requires room { LINE_MAX ≤ vec_capacity room.old.buffer }
    ensures whole { OnOk result (HandsOn (W.contents out.old)
        (W.contents out.new) room.old.buffer.items (report_text plan.now.names
        queue.entry.r queue.entry.report.now.entries.items queue.entry.closing) room.new.buffer.items) }
    ensures part { OnErr result (HandsPart (W.contents out.old)
        (W.contents out.new) room.old.buffer.items (report_text plan.now.names
        queue.entry.r queue.entry.report.now.entries.items queue.entry.closing)) }
    ensures room { LINE_MAX ≤ vec_capacity room.new.buffer }
{
    write_head(&mut room.buffer, out, queue.r)?;
    room.write_lines(rt, out, &queue.report.entries, plan)?;
    write_close(&mut room.buffer, out, queue.closing)?;
    Ok(())
}

fn write_head<W: Write>(buffer: &mut Vec<u8>, out: &mut W, r: u32) -> io::Result<()>
    requires { LINE_MAX ≤ vec_capacity buffer.old }
    ensures whole { OnOk result (HandsOn (W.contents out.old) (W.contents out.new) buffer.old.items
        (head_line r) buffer.new.items) }
    ensures part { OnErr result
        (HandsPart (W.contents out.old) (W.contents out.new) buffer.old.items (head_line r)) }
    ensures room { LINE_MAX ≤ vec_capacity buffer.new }
{
    make_room(buffer, out)?;
    append_head(buffer, r);
    Ok(())
}

fn write_close<W: Write>(buffer: &mut Vec<u8>, out: &mut W, closing: Reading) -> io::Result<()>
    requires { LINE_MAX ≤ vec_capacity buffer.old }
    ensures whole { OnOk result (HandsOn (W.contents out.old) (W.contents out.new) buffer.old.items
        (close_line closing) buffer.new.items) }
    ensures part { OnErr result (HandsPart (W.contents out.old)
        (W.contents out.new) buffer.old.items (close_line closing)) }
    ensures room { LINE_MAX ≤ vec_capacity buffer.new }
{
    make_room(buffer, out)?;
    append_close(buffer, closing);
    Ok(())
}
