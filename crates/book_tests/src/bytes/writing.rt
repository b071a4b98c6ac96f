//! Lines of numbers through writers that take all, and writers that fail.

ghost use Rattle.std.specs.Prelude.{◌++◌, codes, decimal, ⊤};

use std::alloc::{AllocError, Global};
use std::io;
use std::io::{ErrorKind, Write};
use std::test::Fail;
use std::thread::Threads;
use text_bytes::{Blocks, LineOf, append, append_number, line_buffer, write_buffer, write_lines};

/// The line of a number is the number.
struct Numbers;

impl LineOf<u32> for Numbers {
    ghost fits = { λ _ _. ⊤ };

    ghost line = { λ _ n. decimal n ++ codes "\n" };

    fn append(&self, out: &mut Vec<u8>, item: &u32) {
        append_number(out, b"", u64::from(*item));
        append(out, b"\n");
    }
}

/// A writer that takes so many bytes, and then fails.
#[derive(Drop)]
struct Short {
    text: Vec<u8>,
    left: usize,
}

impl Write for Short {
    fn write(&mut self, buf: &[u8]) -> io::Result<usize> {
        if self.left == 0 {
            return Err(io::Error::from(ErrorKind::Other));
        }
        let count = self.left.min(buf.len());
        self.left -= count;
        self.text.extend_from_slice(&buf[..count])?;
        Ok(count)
    }

    fn flush(&mut self) -> io::Result<()> {
        Ok(())
    }
}

/// The numbers below `count`, and their lines after a head.
fn numbers_below(alloc: Global, count: u32) -> Result<(Vec<u32>, Vec<u8>), AllocError> {
    let mut items = Vec::new(alloc);
    let mut text = b"head\n".to_vec(alloc)?;
    for n in 0..count {
        items.push(n)?;
        text.extend_from_slice(format!(in alloc; "{n}\n")?.as_bytes())?;
    }
    Ok((items, text))
}

/// What a writer that takes so many bytes holds after a head and these lines, and whether all was written.
fn written<R: Threads + Sync>(
    rt: &R,
    alloc: Global,
    items: &[u32],
    left: usize,
) -> Result<(Vec<u8>, bool), AllocError> {
    let Ok(mut buffer) = line_buffer(alloc) else {
        return Ok((Vec::new(alloc), false));
    };
    let mut blocks = Blocks::new(alloc)?;
    let text = Vec::new(alloc);
    let mut out = Short { text, left };
    append(&mut buffer, b"head\n");
    let lines = write_lines(rt, &mut blocks, &mut buffer, &mut out, items, &Numbers);
    let whole = lines.is_ok() && write_buffer(&mut buffer, &mut out).is_ok();
    Ok((out.text, whole))
}

/// None, few, the last that are few, the first that are many, a round that does not part evenly, and more than a round.
const COUNTS: [u32; 7] = [0, 3, 1023, 1024, 4099, 32769, 70_001];

#[test]
fn lines_stand_in_order(rt: HostRuntime) -> Result<(), Fail> {
    let alloc = rt.alloc();
    for count in COUNTS {
        let (items, text) = numbers_below(alloc, count)?;
        let (out, whole) = written(&rt, alloc, &items, usize::MAX)?;
        assert!(rt; whole, "{count}");
        assert!(rt; out == text, "{count}");
    }
    Ok(())
}

/// The writer fails at the first byte, in the head, at the end of it, in a block, at the end of one, in the second round, and
/// at the last byte.
#[test]
fn a_beginning_stands_after_a_failing_write(rt: HostRuntime) -> Result<(), Fail> {
    let alloc = rt.alloc();
    let (items, text) = numbers_below(alloc, 40_000)?;
    let block = 5 + 10 + 180 + 2700 + 7192 * 5;
    for left in [
        0,
        3,
        5,
        1000,
        block,
        block + 1,
        190_000,
        text.len().saturating_sub(1),
    ] {
        let (out, whole) = written(&rt, alloc, &items, left)?;
        assert!(rt; !whole, "{left}");
        assert!(rt; Some(out.as_slice()) == text.get(..left), "{left}");
    }
    Ok(())
}
