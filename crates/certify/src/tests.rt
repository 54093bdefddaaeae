// What is read of an input.
use crate::{MOST_BYTES, read_input};
use std::alloc::Global;
use std::io;
use std::io::Read;
use std::process::Abort;

// The bytes of an input are 1, 2, 3 and so on up to 250, and from 1 again.
fn after(byte: u8) -> u8 {
    if byte < 250 { byte + 1 } else { 1 }
}

// Gives so many bytes in all, a piece at a time, and fails in the end where it should.
#[derive(Drop)]
struct Pieces {
    left: usize,
    next: u8,
    piece: usize,
    fails: bool,
}

impl Read for Pieces {
    fn read(&mut self, buf: &mut [u8]) -> io::Result<usize> {
        if self.left == 0 && self.fails {
            return Err(io::Error::from(io::ErrorKind::UnexpectedEof));
        }
        let count = self.piece.min(self.left).min(buf.len());
        let mut next = self.next;
        for byte in buf.iter_mut().take(count) {
            next = after(next);
            *byte = next;
        }
        self.next = next;
        self.left -= count;
        Ok(count)
    }
}

// So many bytes come of an input of this size, in order.
fn read_of(
    rt: &impl Abort,
    alloc: Global,
    size: usize,
    piece: usize,
    wanted: usize,
) -> io::Result<()> {
    let mut input = Pieces {
        left: size,
        next: 0,
        piece,
        fails: false,
    };
    let file = read_input(alloc, &mut input)?;
    assert_eq!(rt; file.len(), wanted);
    let mut next = 0;
    for byte in file {
        next = after(next);
        assert_eq!(rt; byte, next);
    }
    Ok(())
}

#[test]
fn whole_inputs(rt: HostRuntime) -> io::Result<()> {
    read_of(&rt, rt.alloc(), 0, 7, 0)?;
    read_of(&rt, rt.alloc(), 5, 1, 5)?;
    read_of(&rt, rt.alloc(), 5, 7, 5)?;
    read_of(&rt, rt.alloc(), MOST_BYTES, 1000, MOST_BYTES)
}

#[test]
fn a_longer_input_is_cut(rt: HostRuntime) -> io::Result<()> {
    read_of(&rt, rt.alloc(), MOST_BYTES + 1, 1000, MOST_BYTES)?;
    read_of(&rt, rt.alloc(), MOST_BYTES + 1, MOST_BYTES + 1, MOST_BYTES)
}

// Gives so many bytes as one message: what a read has no room for is lost.
#[derive(Drop)]
struct Message {
    left: usize,
}

impl Read for Message {
    fn read(&mut self, buf: &mut [u8]) -> io::Result<usize> {
        let count = self.left.min(buf.len());
        buf[..count].fill(7);
        self.left = 0;
        Ok(count)
    }
}

#[test]
fn a_message_is_read_whole(rt: HostRuntime) -> io::Result<()> {
    for left in [781, 8_021, MOST_BYTES] {
        let file = read_input(rt.alloc(), &mut Message { left })?;
        assert_eq!(rt; file.len(), left);
    }
    Ok(())
}

#[test]
fn a_failing_input(rt: HostRuntime) {
    let mut input = Pieces {
        left: 3,
        next: 0,
        piece: 2,
        fails: true,
    };
    assert!(rt; read_input(rt.alloc(), &mut input).is_err());
}
