//! Plays records of probes by the search of `grubtrace check`, and by three that search wrongly, and prints what each comes to: how many
//! values of each kind are equal and differ, whether the record agrees, and the moves of the search.
#![tactic(auto)]

mod reading;
mod showing;
mod wrong;

use crate::reading::{ReadRecord, read_record};
use crate::showing::{put_counts, put_first};
use crate::wrong::{Everything, Nothing, OtherLine};
use probe_explain::{Player, Search};
use probe_run::Run;
use probe_search::{ProbeSearch, Witness};
use std::alloc::{AllocError, Global};
use std::io::{Read, Write};
use std::{env, fs};

/// A search sees so many lines behind the next one.
const AHEAD: usize = 4096;

/// Plays a record by a search.
fn played<S: Search>(
    alloc: Global,
    record: &ReadRecord,
    search: &mut S,
) -> Result<Player, AllocError> {
    let start = record.look.start(alloc, &record.notes)?;
    let mut player = Player::new(alloc, record.rules(), start, AHEAD, false)?;
    for line in &record.lines {
        player.take(search, line)?;
    }
    player.finish(search)?;
    Ok(player)
}

fn answer(run: &Run) -> &'static str {
    if run.agrees() { "agrees" } else { "differs" }
}

/// Prints what the search comes to, and its moves.
fn show_search<W: Write>(
    alloc: Global,
    out: &mut W,
    record: &ReadRecord,
    shows_moves: bool,
) -> Result<(), AllocError> {
    let search = ProbeSearch::new(alloc, record.rules(), record.look.shows_spans());
    let mut witness = Witness::new(alloc, search);
    let player = played(alloc, record, &mut witness)?;
    let _ = writeln!(out, "the search: {}", answer(player.run()));
    put_counts(out, &player.run().counts());
    put_first(alloc, out, player.run().first())?;
    if shows_moves {
        let _ = out.write_all(witness.text.as_bytes());
    }
    Ok(())
}

/// Prints what three wrong searches come to.
fn show_wrong<W: Write>(alloc: Global, out: &mut W, record: &ReadRecord) -> Result<(), AllocError> {
    let player = played(alloc, record, &mut Nothing)?;
    let _ = writeln!(out, "nothing chosen: {}", answer(player.run()));
    let player = played(alloc, record, &mut Everything)?;
    let _ = writeln!(out, "everything chosen: {}", answer(player.run()));
    let search = ProbeSearch::new(alloc, record.rules(), record.look.shows_spans());
    let player = played(alloc, record, &mut OtherLine::new(search))?;
    let _ = writeln!(out, "choices of another line: {}", answer(player.run()));
    Ok(())
}

/// Prints what the record of a file comes to.
fn show<W: Write>(
    alloc: Global,
    out: &mut W,
    name: &str,
    text: &[u8],
    shows_moves: bool,
) -> Result<(), AllocError> {
    let record = read_record(alloc, text)?;
    let _ = writeln!(out, "{name}: {} lines", record.lines.len());
    show_search(alloc, out, &record, shows_moves)?;
    show_wrong(alloc, out, &record)
}

fn main(rt: HostRuntime) {
    let alloc = rt.alloc();
    let mut out = rt.stdout();
    let Ok(args) = env::args(&rt) else {
        return;
    };
    let mut shows_moves = false;
    for name in args.skip(1) {
        if name.as_str() == "--moves" {
            shows_moves = true;
            continue;
        }
        let mut text = Vec::new(alloc);
        if let Ok(mut file) = fs::open(&rt, name.as_str()) {
            let _ = file.read_to_end(&mut text);
        }
        let _ = show(alloc, &mut out, name.as_str(), text.as_slice(), shows_moves);
    }
}
