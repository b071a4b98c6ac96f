//! The steps of a time line as a table of fields with tabs between them, through a buffer that never grows.

ghost use Rattle.std.specs.Prelude.{◌≡◌, ◌+◌, ◌≤◌, [], OnOk, OnErr, length, vec_len, vec_capacity};
ghost use Rattle.std.specs.List.{flat_map};
ghost use Rattle.grub_book.specs.Sums.{opening_book};
ghost use Rattle.text_bytes.specs.Writing.{HandsOn, HandsPart};
ghost use Rattle.grub_timeline.specs.Fitting.{AreToldIn, IsToldIn};
ghost use Rattle.grub_timeline.specs.Past.{book_past};
ghost use Rattle.grub_timeline.specs.Replay.{steps_from, steps_of};
ghost use Rattle.grub_views.specs.Rows.{HandsOnSteps, HandsPartOfSteps, header, step_row};

use crate::beside::play_beside;
use crate::line_room::LineRoom;
use crate::rest::play_out;
use crate::row::append_step;
use crate::step_maker::StepMaker;
use grub_plan::Plan;
use grub_timeline::{Playing, Step};
use std::io;
use std::io::Write;
use std::thread::Threads;
use text_bytes::{LINE_MAX, LineOf, append, make_room};

/// The names of the columns.
const HEADER: &[u8] = b"moment\trunqueue\task\ttask\targ\tanswer\tdq\tk\tq\td\tz\trunning\tthis\n";

/// Plays what is left of a time line of the plan, of which nothing was played yet, and puts its steps into the room's buffer, which
/// is written as often as it is full, for programs that read tables: the names of the columns, and then for each entry a line of
/// fields with a tab between each two. A field that there is none of is empty. The steps are those of the maker's book, of which
/// nothing was asked yet. Entries wait for their rows with the maker, while the next ones are played. It takes no memory.
/// After a failing write, or one that took nothing, a beginning of the buffer's bytes and the text was written.
pub fn write_steps<R: Threads + Sync, W: Write>(
    rt: &R,
    room: &mut LineRoom,
    out: &mut W,
    plan: &Plan,
    maker: &mut StepMaker<'_>,
    mut playing: Playing<'_>,
) -> io::Result<()>
    requires plan { playing.plan ≡ plan.now }
    requires nothing { playing.told ≡ [] }
    requires setup { maker.old.book.setup ≡ plan.now.setup }
    requires book { maker.old.book.records ≡ opening_book plan.now.setup }
    requires latest { length plan.now.setup.tasks + 3 ≤ vec_capacity maker.old.latest }
    requires steps { playing.most ≤ vec_capacity maker.old.steps }
    requires waiting { vec_capacity maker.old.latest ≤ vec_capacity maker.old.steps }
    requires room { LINE_MAX ≤ vec_capacity room.old.buffer }
    ensures whole { OnOk result (HandsOnSteps plan.now (W.contents out.old)
        (W.contents out.new) room.old.buffer.items room.new.buffer.items) }
    ensures part { OnErr result (HandsPartOfSteps plan.now
        (W.contents out.old) (W.contents out.new) room.old.buffer.items) }
    ensures room { LINE_MAX ≤ vec_capacity room.new.buffer }
{
    if let Err(fault) = write_header(&mut room.buffer, out) {
        play_out(&mut playing);
        playing.close();
        return Err(fault);
    }
    let written = write_rows(rt, room, out, plan, maker, &mut playing);
    playing.close();
    written
}

fn write_header<W: Write>(buffer: &mut Vec<u8>, out: &mut W) -> io::Result<()>
    requires { LINE_MAX ≤ vec_capacity buffer.old }
    ensures whole { OnOk result (HandsOn (W.contents out.old)
        (W.contents out.new) buffer.old.items header buffer.new.items) }
    ensures part { OnErr result
        (HandsPart (W.contents out.old) (W.contents out.new) buffer.old.items header) }
    ensures room { LINE_MAX ≤ vec_capacity buffer.new }
{
    make_room(buffer, out)?;
    append(buffer, HEADER);
    Ok(())
}

/// Plays all lines, and puts a row for each entry into the buffer.
fn write_rows<R: Threads + Sync, W: Write>(
    rt: &R,
    room: &mut LineRoom,
    out: &mut W,
    plan: &Plan,
    maker: &mut StepMaker<'_>,
    playing: &mut Playing<'_>,
) -> io::Result<()>
    requires plan { playing.old.plan ≡ plan.now }
    requires nothing { playing.old.told ≡ [] }
    requires setup { maker.old.book.setup ≡ plan.now.setup }
    requires book { maker.old.book.records ≡ opening_book plan.now.setup }
    requires latest { length plan.now.setup.tasks + 3 ≤ vec_capacity maker.old.latest }
    requires steps { playing.old.most ≤ vec_capacity maker.old.steps }
    requires waiting { vec_capacity maker.old.latest ≤ vec_capacity maker.old.steps }
    requires room { LINE_MAX ≤ vec_capacity room.old.buffer }
    ensures plan { playing.new.plan ≡ plan.now }
    ensures over { playing.new.left ≡ 0 }
    ensures whole { OnOk result (HandsOn (W.contents out.old)
        (W.contents out.new) room.old.buffer.items (flat_map (step_row plan.now.names)
        (steps_of plan.now.setup playing.new.told)) room.new.buffer.items) }
    ensures part { OnErr result
        (HandsPart (W.contents out.old) (W.contents out.new) room.old.buffer.items
        (flat_map (step_row plan.now.names) (steps_of plan.now.setup playing.new.told))) }
    ensures room { LINE_MAX ≤ vec_capacity room.new.buffer }
{
    let rows = PlanRows { plan };
    let mut more = playing.play_on();
    while more {
        playing.exchange(&mut maker.latest);
        let count = maker.latest.len();
        let mut write = || -> io::Result<()>
            requires setup { maker.now.book.setup ≡ rows.plan.now.setup }
            requires told { AreToldIn rows.plan.now.setup maker.now.latest.items }
            requires steps { vec_len maker.now.latest ≤ vec_capacity maker.now.steps }
            requires room { LINE_MAX ≤ vec_capacity room.now.buffer }
            ensures setup { maker.exit.now.book.setup ≡ rows.entry.plan.now.setup }
            ensures book { maker.exit.now.book.records ≡ book_past rows.entry.plan.now.setup
                maker.entry.now.book.records maker.entry.now.latest.items }
            ensures steps { vec_capacity maker.exit.now.steps
                ≡ vec_capacity maker.entry.now.steps }
            ensures latest { maker.exit.now.latest ≡ maker.entry.now.latest }
            ensures whole { OnOk result (HandsOn (W.contents out.entry.now)
                (W.contents out.exit.now) room.entry.now.buffer.items
                (flat_map (step_row rows.entry.plan.now.names) (steps_from rows.entry.plan.now.setup
                maker.entry.now.book.records maker.entry.now.latest.items))
                room.exit.now.buffer.items) }
            ensures part { OnErr result (HandsPart (W.contents out.entry.now)
                (W.contents out.exit.now) room.entry.now.buffer.items
                (flat_map (step_row rows.entry.plan.now.names) (steps_from rows.entry.plan.now.setup
                maker.entry.now.book.records maker.entry.now.latest.items))) }
            ensures room { LINE_MAX ≤ vec_capacity room.exit.now.buffer }
        {
            maker.make();
            room.write_lines(rt, out, &maker.steps, &rows)
        };
        let (goes_on, written) = play_beside(rt, playing, count, &mut write);
        if let Err(fault) = written {
            play_out(playing);
            return Err(fault);
        }
        more = goes_on;
    }
    Ok(())
}

/// How the steps of a plan's entries are told.
#[derive(Clone, Copy)]
struct PlanRows<'a> {
    plan: &'a Plan,
}

impl<'a> LineOf<Step> for PlanRows<'a> {
    ghost fits = { λ rows x. IsToldIn rows.plan.now.setup x.told };

    ghost line = { λ rows x. step_row rows.plan.now.names x };

    fn append(&self, out: &mut Vec<u8>, item: &Step) {
        append_step(out, self.plan, item);
    }
}
