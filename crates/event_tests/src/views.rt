//! Views of worked examples, and refused growths.

ghost use Rattle.std.specs.Prelude.{◌≡◌, ◌≤◌, IfSome, vec_capacity};
ghost use Rattle.grub_book.specs.Sums.{opening_book};

use crate::{documentation, moving};
use grub_book::Book;
use grub_picture::*;
use grub_plan::Plan;
use grub_timeline::{Playing, play, *};
use grub_trace::read_files;
use grub_views::*;
use std::alloc::Global;
use std::process::Abort;
use std::thread::Threads;
use text_bytes::{LINE_MAX, write_buffer};

#[derive(Clone, Copy)]
enum View {
    Lines,
    Steps,
    Summary,
    Picture,
}

fn files_of(alloc: Global, texts: &[&str]) -> Option<Vec<Vec<u8>>> {
    let mut files = Vec::new(alloc);
    for text in texts {
        let Ok(bytes) = text.as_bytes().to_vec(alloc) else {
            return None;
        };
        if files.push(bytes).is_err() {
            return None;
        }
    }
    Some(files)
}

fn plan_of(alloc: Global, texts: &[&str]) -> Option<Plan> {
    match files_of(alloc, texts) {
        Some(files) => read_files(alloc, &files).ok(),
        None => None,
    }
}

/// A view of these files. Each refusal of memory is answered as the view's own.
fn view_of<R: Threads + Sync>(
    rt: &R,
    alloc: Global,
    texts: &[&str],
    view: View,
) -> Result<Vec<u8>, ViewFault> {
    match plan_of(alloc, texts) {
        Some(plan) => view_of_plan(rt, alloc, &plan, view),
        None => Err(ViewFault::NoMemory),
    }
}

fn view_of_plan<R: Threads + Sync>(
    rt: &R,
    alloc: Global,
    plan: &Plan,
    view: View,
) -> Result<Vec<u8>, ViewFault> {
    match view {
        View::Lines | View::Steps => written(rt, alloc, plan, view),
        View::Summary | View::Picture => view_of_line(alloc, plan, view),
    }
}

/// A view that is made of the whole time line.
fn view_of_line(alloc: Global, plan: &Plan, view: View) -> Result<Vec<u8>, ViewFault> {
    let Ok(line) = play(alloc, plan) else {
        return Err(ViewFault::NoMemory);
    };
    match view {
        View::Picture => picture_text(alloc, plan, &line, 0, end_of(&line)),
        _ => summary_text(alloc, plan, &line),
    }
}

/// A view that is written while the time line is played.
fn written<R: Threads + Sync>(
    rt: &R,
    alloc: Global,
    plan: &Plan,
    view: View,
) -> Result<Vec<u8>, ViewFault> {
    let Ok(mut room) = LineRoom::new(alloc) else {
        return Err(ViewFault::NoMemory);
    };
    let mut text = Vec::new(alloc);
    let is_played = match view {
        View::Lines => play_lines(rt, alloc, plan, &mut room, &mut text),
        _ => play_steps(rt, alloc, plan, &mut room, &mut text),
    };
    if is_played && write_buffer(&mut room.buffer, &mut text).is_ok() {
        Ok(text)
    } else {
        Err(ViewFault::NoMemory)
    }
}

/// Plays the lines of the time line, and says whether there was memory.
fn play_lines<R: Threads + Sync>(
    rt: &R,
    alloc: Global,
    plan: &Plan,
    room: &mut LineRoom,
    text: &mut Vec<u8>,
) -> bool
    requires { LINE_MAX ≤ vec_capacity room.old.buffer }
{
    let Ok(playing) = Playing::new(alloc, plan) else {
        return false;
    };
    let Ok(mut latest) = Vec::with_capacity(alloc, playing.most()) else {
        return false;
    };
    write_timeline(rt, room, text, plan, &mut latest, playing).is_ok()
}

/// What makes the steps of a time line of the plan of which so many entries are played at a time.
fn maker_of<'a>(alloc: Global, plan: &'a Plan, most: usize) -> Option<StepMaker<'a>>
    ensures setup { IfSome result (λ x. x.book.setup ≡ plan.now.setup) }
    ensures book { IfSome result (λ x. x.book.records ≡ opening_book plan.now.setup) }
    ensures room { IfSome result (λ x. (most ≤ vec_capacity x.latest)
        × (vec_capacity x.latest ≤ vec_capacity x.steps)) }
{
    let Ok(book) = Book::new(alloc, plan.setup()) else {
        return None;
    };
    let Ok(latest) = Vec::with_capacity(alloc, most) else {
        return None;
    };
    let Ok(steps) = Vec::with_capacity(alloc, latest.capacity()) else {
        return None;
    };
    Some(StepMaker {
        book,
        latest,
        steps,
    })
}

/// Plays the steps of the time line, and says whether there was memory.
fn play_steps<R: Threads + Sync>(
    rt: &R,
    alloc: Global,
    plan: &Plan,
    room: &mut LineRoom,
    text: &mut Vec<u8>,
) -> bool
    requires { LINE_MAX ≤ vec_capacity room.old.buffer }
{
    let Ok(playing) = Playing::new(alloc, plan) else {
        return false;
    };
    let Some(mut maker) = maker_of(alloc, plan, playing.most()) else {
        return false;
    };
    write_steps(rt, room, text, plan, &mut maker, playing).is_ok()
}

/// Whether a view is this text, or memory was refused.
fn is_right(view: Result<Vec<u8>, ViewFault>, text: &str) -> bool {
    match view {
        Ok(view) => view.as_slice() == text.as_bytes(),
        Err(fault) => fault == ViewFault::NoMemory,
    }
}

/// Expects that a view of the documentation's file, and of the files of a task that moves, is this text, or that memory
/// was refused.
fn expect_views<R: Abort + Threads + Sync>(
    rt: &R,
    alloc: Global,
    view: View,
    documentation: &str,
    moving: &str,
) {
    let one = view_of(rt, alloc, &[documentation::FILE], view);
    assert!(rt; is_right(one, documentation));
    let two = view_of(rt, alloc, &[moving::FROM, moving::TO], view);
    assert!(rt; is_right(two, moving));
}

// The next four pass with ample memory, and with any one of their growths refused: `tests/refused-growths.py` runs them
// so once for each.

#[test]
fn refused_growths_of_lines(rt: HostRuntime) {
    let alloc = rt.alloc();
    expect_views(&rt, alloc, View::Lines, documentation::LINES, moving::LINES);
}

#[test]
fn refused_growths_of_steps(rt: HostRuntime) {
    let alloc = rt.alloc();
    expect_views(&rt, alloc, View::Steps, documentation::STEPS, moving::STEPS);
}

#[test]
fn refused_growths_of_the_summary(rt: HostRuntime) {
    let alloc = rt.alloc();
    expect_views(
        &rt,
        alloc,
        View::Summary,
        documentation::SUMMARY,
        moving::SUMMARY,
    );
}

/// Whether a picture is made, or memory was refused.
fn is_picture(view: Result<Vec<u8>, ViewFault>) -> bool {
    match view {
        Ok(view) => view.starts_with(b"<svg "),
        Err(fault) => fault == ViewFault::NoMemory,
    }
}

#[test]
fn refused_growths_of_the_picture(rt: HostRuntime) {
    let view = view_of(&rt, rt.alloc(), &[moving::FROM, moving::TO], View::Picture);
    assert!(rt; is_picture(view));
}

/// Whether a view of the files of a task that moves is made.
fn is_made<R: Threads + Sync>(rt: &R, alloc: Global, view: View) -> bool {
    view_of(rt, alloc, &[moving::FROM, moving::TO], view).is_ok()
}

/// Whether the fault of a view is told by its number.
fn is_told(alloc: Global) -> bool {
    match format!(in alloc; "{}", ViewFault::NoMemory) {
        Ok(text) => text.as_str() == "48 NoMemory",
        Err(_) => false,
    }
}

/// With ample memory each view is made.
#[test]
fn views_are_made(rt: HostRuntime) {
    let alloc = rt.alloc();
    assert!(rt; is_made(&rt, alloc, View::Lines));
    assert!(rt; is_made(&rt, alloc, View::Steps));
    assert!(rt; is_made(&rt, alloc, View::Summary));
    assert!(rt; is_made(&rt, alloc, View::Picture));
    assert!(rt; is_told(alloc));
}
