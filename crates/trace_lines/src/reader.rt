//! Reads a record whose text comes in pieces.

ghost use Rattle.std.specs.Prelude.{◌≡◌, ℕ, List, ◌++◌, [], IfOk, IsTrue, OnOk, None, is_some};
ghost use Rattle.trace_lines.specs.ToldTexts.{told_text};
ghost use Rattle.trace_lines.specs.declared.line.ToldLine.{ToldLine};
ghost use Rattle.trace_lines.specs.declared.clock.Clock.TheVariants.{Untold};
ghost use Rattle.trace_lines.specs.Reading.{After, cut_flaw, flaw_told, further, halt_at, halt_at_end, line_ended, taken, without_return};
ghost use Rattle.trace_lines.specs.Keeping.{after_of, progress};
ghost use Rattle.trace_lines.specs.Told.{NeedsNoMore, ReadsOn};

use crate::clock::{Clock, clock_behind, halt_of_clock};
use crate::{ToldLine, told_by};
use std::alloc::{AllocError, Global};
use text_bytes::first_line;
use trace_data::{Flaw, RecordLine};
use trace_fields::{before_end, is_lost};

/// What lines go to.
pub trait Lines {
    /// Why it takes no line any more: want of memory, or what is wrong by its own rules.
    type Fault: From<AllocError>;

    // What the lines so far came to.
    ghost Seen: { Type 0 };

    ghost seen: { Self → Seen };

    // What a line comes to, whose number and words these are.
    ghost step: { ℕ → ToldLine (List ℕ) → Seen → After Seen };

    /// Takes a line that has no flaw, and answers whether it wants more; lines are numbered from 1.
    fn take(&mut self, number: u64, told: &ToldLine<&[u8]>) -> Result<bool, Self::Fault>
        ensures { IfOk result
            (λ more. after_of more (seen self.new)
            ≡ step number (told_text told.now) (seen self.old)) };
}

/// The line at which a text is read no further.
#[derive(Clone, Copy)]
pub struct Halt {
    /// Which line, from 1.
    pub line: u64,

    /// What is wrong with it; none where the lines' taker wants no more.
    pub flaw: Option<Flaw>,
}

/// Reads a record whose text comes in pieces: hands its lines on, in their order, up to the first that has a flaw.
#[derive(Drop)]
pub struct RecordReader {
    /// What came since the last line ended.
    pub carry: Vec<u8>,

    /// How many lines ended.
    pub line: u64,

    /// What they say of the clock.
    pub clock: Clock,

    pub halt: Option<Halt>,
}

/// A line without a byte 0D at its end.
fn without_return(line: &[u8]) -> &[u8]
    ensures { result.now ≡ without_return line.now }
{
    match before_end(b"\r", line) {
        None => line,
        Some(rest) => rest,
    }
}

/// What is wrong with a last line that no byte ends.
fn cut_flaw(line: &[u8]) -> Flaw
    ensures { result ≡ cut_flaw line.now }
{
    if is_lost(line) {
        Flaw::LostEvents
    } else {
        Flaw::BadTraceLine
    }
}

fn flaw_told(line: &RecordLine) -> Option<Flaw>
    ensures { result ≡ flaw_told line.now }
{
    match *line {
        RecordLine::Flawed(flaw) => Some(flaw),
        _ => None,
    }
}

/// Where a text halts, behind a line after which more is wanted, or not.
fn halt_at(line: u64, more: bool) -> Option<Halt>
    ensures { result ≡ halt_at line more }
{
    if more {
        None
    } else {
        Some(Halt { line, flaw: None })
    }
}

impl RecordReader {
    /// A reader to which nothing came yet.
    pub fn new(alloc: Global) -> RecordReader
        ensures carry { result.carry.items ≡ [] }
        ensures line { result.line ≡ 0 }
        ensures clock { result.clock ≡ Untold }
        ensures halt { result.halt ≡ None }
    {
        RecordReader {
            carry: Vec::new(alloc),
            line: 0,
            clock: Clock::Untold,
            halt: None,
        }
    }

    /// Hands on a line whose words these are.
    fn hand_on<L: Lines>(&mut self, lines: &mut L, told: &ToldLine<&[u8]>) -> Result<(), L::Fault>
        requires { self.old.carry.items ≡ [] }
        ensures { OnOk result (progress self.new (L.seen lines.new)
            ≡ taken L.step self.old.line (told_text told.now) self.old.clock (L.seen lines.old)) }
    {
        self.clock = clock_behind(&told.line, self.line, self.clock);
        self.halt = match flaw_told(&told.line) {
            Some(flaw) => Some(Halt {
                line: self.line,
                flaw: Some(flaw),
            }),
            None => halt_at(self.line, lines.take(self.line, told)?),
        };
        Ok(())
    }

    /// Takes the next line, behind which nothing came.
    fn take<L: Lines>(&mut self, lines: &mut L, text: &[u8]) -> Result<(), L::Fault>
        requires { self.old.carry.items ≡ [] }
        ensures { OnOk result (progress self.new (L.seen lines.new)
            ≡ line_ended L.step (progress self.old (L.seen lines.old)) text.now) }
    {
        self.line = self.line.saturating_add(1);
        let told = told_by(without_return(text));
        self.hand_on(lines, &told)
    }

    /// Takes the line that ends with this text, behind what came before.
    fn end_line<L: Lines>(&mut self, lines: &mut L, last: &[u8]) -> Result<(), L::Fault>
        ensures { OnOk result (progress self.new (L.seen lines.new) ≡ line_ended L.step
            (progress self.old (L.seen lines.old)) (self.old.carry.items ++ last.now)) }
    {
        if self.carry.is_empty() {
            return self.take(lines, last);
        }
        self.carry.extend_from_slice(last)?;
        let empty = Vec::new(*self.carry.allocator());
        let text = std::mem::replace(&mut self.carry, empty);
        self.take(lines, text.as_slice())
    }

    /// Takes a piece. Behind the line at which the text halts nothing is read any more.
    fn read_piece<L: Lines>(&mut self, lines: &mut L, piece: &[u8]) -> Result<(), L::Fault>
        ensures { OnOk result (progress self.new (L.seen lines.new)
            ≡ further L.step (progress self.old (L.seen lines.old)) piece.now) }
    {
        let mut rest = piece;
        while self.halt.is_none() {
            let Some((line, after)) = first_line(rest) else {
                self.carry.extend_from_slice(rest)?;
                return Ok(());
            };
            self.end_line(lines, line)?;
            rest = after;
        }
        Ok(())
    }

    /// Reads the next piece of the text. Behind the line at which it halts nothing is read any more.
    pub fn feed<L: Lines>(&mut self, lines: &mut L, piece: &[u8]) -> Result<(), L::Fault>
        ensures { OnOk result (ReadsOn L.step piece.now (progress self.old (L.seen lines.old))
            (progress self.new (L.seen lines.new))) }
    {
        self.read_piece(lines, piece)?;
        Ok(())
    }

    /// Whether a line was read at which the text halts: what follows need not be given.
    pub fn is_halted<L: Lines>(&self, lines: &L) -> bool
        ensures halt { result ≡ is_some self.now.halt }
        ensures rest { IsTrue result → NeedsNoMore L.step (progress self.now (L.seen lines.now)) }
    {
        self.halt.is_some()
    }

    /// Where the text halts, if it ends here: none where each of its lines was taken, and the clock is right.
    pub fn end(self) -> Option<Halt>
        ensures { result ≡ halt_at_end self.halt self.line self.carry.items self.clock }
    {
        let RecordReader {
            carry,
            line,
            clock,
            halt,
        } = self;
        if halt.is_some() {
            return halt;
        }
        if carry.is_empty() {
            return halt_of_clock(clock);
        }
        Some(Halt {
            line: line.saturating_add(1),
            flaw: Some(cut_flaw(carry.as_slice())),
        })
    }
}
