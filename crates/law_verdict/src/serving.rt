//! Figures of the trace of a path.

use crate::TaskName;
use crate::lines::FigureLines;
use crate::task_text::{put_figures, put_supply};
use std::alloc::{AllocError, Global};
use std::collections::HashMap;
use std::io;
use std::io::Write;
use text_bytes::Source;
use trace_data::{Fixed, RecordLine, Said};
use trace_file::read_lines;
use trace_lines::{Lines, ToldLine};

/// Whether a line of an event shows its task in the class: from the first one on the task has this comm.
pub fn shows_class(line: &RecordLine) -> bool {
    matches!(
        *line,
        RecordLine::Event {
            said: Said::Fixed(
                Fixed::Woken {
                    is_deadline: true,
                    ..
                } | Fixed::Migrated {
                    is_deadline: true,
                    ..
                } | Fixed::Switched {
                    is_deadline: true,
                    ..
                },
            ),
            ..
        }
    )
}

/// Where a task's name stands, and whether a line has shown it in the class.
#[derive(Clone, Copy)]
struct NamePlace {
    place: usize,
    is_in_class: bool,
}

/// The lines of a trace, with the comm of each task: that of its first line in the class, else that of its first line.
#[derive(Drop)]
struct NamedLines {
    alloc: Global,
    figures: FigureLines,
    names: Vec<TaskName>,
    places: HashMap<u64, NamePlace>,
}

impl Lines for NamedLines {
    type Fault = AllocError;

    ghost use Rattle.std.specs.Prelude.{ℕ, true};

    ghost Seen = { ℕ };

    ghost seen = { λ lines. 0 };

    ghost step = { λ n told seen. record { more = true; seen = 0 } };

    fn take(&mut self, number: u64, told: &ToldLine<&[u8]>) -> Result<bool, AllocError> {
        if let Some(shown) = told.shown {
            self.show(shown.pid, shown.comm, shows_class(&told.line))?;
        }
        if let RecordLine::Event { said, .. } = &told.line {
            self.figures.take(said)?;
        }
        Ok(true)
    }
}

impl NamedLines {
    /// A line shows a task with this comm.
    fn show(&mut self, pid: u64, comm: &[u8], is_in_class: bool) -> Result<(), AllocError> {
        let place = match self.places.get(&pid).copied() {
            None => self.names.len(),
            Some(known) if is_in_class && !known.is_in_class => known.place,
            Some(_) => return Ok(()),
        };
        let name = TaskName {
            pid,
            comm: Vec::from_slice(self.alloc, comm)?,
        };
        match self.names.get_mut(place) {
            Some(named) => *named = name,
            None => self.names.push(name)?,
        }
        self.places.insert(pid, NamePlace { place, is_in_class })?;
        Ok(())
    }
}

/// What is printed of the tasks of a trace.
#[derive(Clone, Copy)]
pub enum FigureText {
    /// A line for each.
    Tasks,

    /// Whether each budget was had by its deadline.
    Supply,
}

/// The text of the figures of a trace; none where it cannot be read.
fn text_of<D: Drop, O: Fn(&str) -> io::Result<D>, N: Fn(&mut D, &mut [u8]) -> io::Result<usize>>(
    alloc: Global,
    source: &Source<O, N>,
    path: &str,
    wanted: FigureText,
) -> Result<Vec<u8>, AllocError>
    requires open { O.IsAlwaysCallable source.now.open }
    requires read { N.IsAlwaysCallable source.now.read }
{
    let mut lines = NamedLines {
        alloc,
        figures: FigureLines::new(alloc),
        names: Vec::new(alloc),
        places: HashMap::new(alloc),
    };
    let mut text = Vec::new(alloc);
    if read_lines(alloc, &source.open, &source.read, path, &mut lines).is_err() {
        return Ok(text);
    }
    let tasks = lines.figures.figures()?;
    match wanted {
        FigureText::Tasks => {
            let left = lines.figures.left()?;
            put_figures(alloc, &mut text, &tasks, &left, &lines.names)?;
        }
        FigureText::Supply => put_supply(alloc, &mut text, &tasks, &lines.names)?,
    }
    Ok(text)
}

/// Prints figures of the trace of a path, which is read a second time for them; whether they were printed. Of standard input, and of a
/// trace without lines of probes, there are none.
pub fn print_figures<
    D: Drop,
    O: Fn(&str) -> io::Result<D>,
    N: Fn(&mut D, &mut [u8]) -> io::Result<usize>,
    W: Write,
>(alloc: Global, source: &Source<O, N>, path: &str, wanted: FigureText, out: &mut W) -> bool
    requires open { O.IsAlwaysCallable source.now.open }
    requires read { N.IsAlwaysCallable source.now.read }
{
    if path == "-" {
        return true;
    }
    match text_of(alloc, source, path, wanted) {
        Ok(text) => out.write_all(&text).is_ok() && out.flush().is_ok(),
        Err(_) => false,
    }
}
