//! Files of fake calls: short reads, broken reads, and the bound.

use std::alloc::Global;
use std::io;
use std::io::ErrorKind;
use std::test::Fail;
use text_bytes::{FileFault, Source, read_all, read_file};

const TEXT: &[u8] = b"grub 1\nqueue 1048576 0\n";

/// Gives the next single byte of the text.
fn one_byte(at: &mut usize, room: &mut [u8]) -> io::Result<usize> {
    if *at >= TEXT.len() || room.is_empty() {
        return Ok(0);
    }
    room[0] = TEXT[*at];
    *at += 1;
    Ok(1)
}

#[test]
fn single_bytes(rt: HostRuntime) -> Result<(), Fail> {
    let source = Source {
        open: |_path: &str| Ok(0usize),
        read: |at: &mut usize, room: &mut [u8]| one_byte(at, room),
    };
    let bytes = read_file(rt.alloc(), &source, "x").ok();
    assert!(rt; bytes.is_some_and(|bytes| bytes.as_slice() == TEXT));
    Ok(())
}

/// Says that it filled all room, as long as there is something left. (Each byte would take long under `rt try`.)
fn claimed(left: &mut usize, room: &mut [u8]) -> io::Result<usize> {
    let count = room.len().min(*left);
    *left -= count;
    Ok(count)
}

/// How many bytes are read of so many, or why not.
fn length_of(alloc: Global, count: usize) -> Result<usize, FileFault> {
    let mut left = count;
    let bytes = read_all(
        alloc,
        &|left: &mut usize, room: &mut [u8]| claimed(left, room),
        &mut left,
    );
    match bytes {
        Ok(bytes) => Ok(bytes.len()),
        Err(fault) => Err(fault),
    }
}

#[test]
fn lengths(rt: HostRuntime) {
    for count in [0, 1, 65535, 65536, 65537, 1000000, 16777216] {
        assert_eq!(rt; length_of(rt.alloc(), count), Ok(count));
    }
    for count in [16777217, 33554432] {
        assert_eq!(rt; length_of(rt.alloc(), count), Err(FileFault::TooLong));
    }
}

/// A file without end is read up to one byte more than it may have.
#[test]
fn no_end(rt: HostRuntime) {
    let mut left = 20000000;
    let bytes = read_all(
        rt.alloc(),
        &|left: &mut usize, room: &mut [u8]| claimed(left, room),
        &mut left,
    );
    assert!(rt; bytes.is_err());
    assert_eq!(rt; left, 20000000 - 16777217);
}

/// Gives so many single bytes, and fails after them.
fn breaks(left: &mut usize, room: &mut [u8]) -> io::Result<usize> {
    if *left == 0 || room.is_empty() {
        return Err(io::Error::from(ErrorKind::Other));
    }
    room[0] = b'7';
    *left -= 1;
    Ok(1)
}

/// Claims one byte more than there is room for.
fn claims_too_much(_file: &mut usize, room: &mut [u8]) -> io::Result<usize> {
    Ok(room.len().saturating_add(1))
}

#[test]
fn broken_reads(rt: HostRuntime) {
    for count in [0usize, 3, 70000] {
        let source = Source {
            open: |_path: &str| Ok(count),
            read: |left: &mut usize, room: &mut [u8]| breaks(left, room),
        };
        let fault = read_file(rt.alloc(), &source, "x").err();
        assert!(rt; fault == Some(FileFault::Read));
    }
    let source = Source {
        open: |_path: &str| Ok(0usize),
        read: |file: &mut usize, room: &mut [u8]| claims_too_much(file, room),
    };
    let fault = read_file(rt.alloc(), &source, "x").err();
    assert!(rt; fault == Some(FileFault::Read));
}

#[test]
fn no_opening(rt: HostRuntime) {
    let source = Source {
        open: |_path: &str| Err::<usize, io::Error>(io::Error::from(ErrorKind::NotFound)),
        read: |at: &mut usize, room: &mut [u8]| one_byte(at, room),
    };
    let fault = read_file(rt.alloc(), &source, "x").err();
    assert!(rt; fault == Some(FileFault::Read));
}

/// Passes with ample memory, and with any one of its growths refused, where the file is answered as such.
#[test]
fn refused_growths(rt: HostRuntime) {
    let count = 200000;
    match length_of(rt.alloc(), count) {
        Ok(length) => assert_eq!(rt; length, count),
        Err(fault) => assert!(rt; fault == FileFault::NoMemory),
    }
}
