// Files for the tests, from their records.
use crate::{Fault, Layers};
use cores::Block;
use std::alloc::{AllocError, Global};

// A record, good or not; many records; or bytes that are no record.
#[derive(Clone, Copy)]
pub(crate) enum Part<'a> {
    Deadline(u16),
    Step(u16, &'a [u8]),
    Edge(u8, u8),
    Block(u8, u16),
    HoldBack(u8, u16, u16),
    Late(u16),
    // a kind and a body
    Record(u16, &'a [u8]),
    // so many steps without labels, of times 1, 2, 3 and so on
    Steps(u8),
    // so many blocks, each as `block_at` says
    Blocks(usize),
    Bytes(&'a [u8]),
}

// What a list holds before a file is read into it.
pub(crate) const OLD_BLOCK: Block = Block { cores: 7, ticks: 8 };

// The bytes of plans/hide.plan, a line for each record.
pub(crate) const HIDE: &[u8] = b"\x02\0\x01\0\x0a\0\
    \x06\0\x02\0\x01\0scan\
    \x0c\0\x02\0\x03\0flaws-left\
    \x0b\0\x02\0\x02\0flaws-mid\
    \x0d\0\x02\0\x04\0flaws-right\
    \x09\0\x02\0\x02\0nesting\
    \x0c\0\x02\0\x01\0knife-path\
    \x02\0\x03\0\x00\x01\
    \x02\0\x03\0\x00\x02\
    \x02\0\x03\0\x00\x03\
    \x02\0\x03\0\x01\x04\
    \x02\0\x03\0\x02\x04\
    \x02\0\x03\0\x03\x05\
    \x02\0\x03\0\x04\x05\
    \x03\0\x04\0\x02\x0a\0";

// One of many blocks: no two neighbours are the same.
pub(crate) fn block_at(place: usize) -> Block {
    Block {
        cores: (place % 64) as u8 + 1,
        ticks: (place % 20_000) as u16 + 1,
    }
}

// The kind is a number, since tests write kinds that there are not.
fn add_header(file: &mut Vec<u8>, length: usize, kind: u16) -> Result<(), AllocError> {
    let [l0, l1, ..] = length.to_le_bytes();
    let [k0, k1] = kind.to_le_bytes();
    file.extend_from_slice(&[l0, l1, k0, k1])
}

fn add_record(file: &mut Vec<u8>, kind: u16, body: &[u8]) -> Result<(), AllocError> {
    add_header(file, body.len(), kind)?;
    file.extend_from_slice(body)
}

fn add_step(file: &mut Vec<u8>, time: u16, label: &[u8]) -> Result<(), AllocError> {
    add_header(file, label.len().saturating_add(2), 2)?;
    file.extend_from_slice(&time.to_le_bytes())?;
    file.extend_from_slice(label)
}

fn add_block(file: &mut Vec<u8>, block: Block) -> Result<(), AllocError> {
    let [t0, t1] = block.ticks.to_le_bytes();
    add_record(file, 4, &[block.cores, t0, t1])
}

fn add_hold_back(file: &mut Vec<u8>, cores: u8, from: u16, until: u16) -> Result<(), AllocError> {
    let [f0, f1] = from.to_le_bytes();
    let [u0, u1] = until.to_le_bytes();
    add_record(file, 5, &[cores, f0, f1, u0, u1])
}

fn add_steps(file: &mut Vec<u8>, count: u8) -> Result<(), AllocError> {
    for place in 0..count {
        add_step(file, u16::from(place) + 1, b"")?;
    }
    Ok(())
}

fn add_blocks(file: &mut Vec<u8>, count: usize) -> Result<(), AllocError> {
    for place in 0..count {
        add_block(file, block_at(place))?;
    }
    Ok(())
}

// Adds a part at the end of a file.
pub(crate) fn add(file: &mut Vec<u8>, part: Part<'_>) -> Result<(), AllocError> {
    match part {
        Part::Deadline(ticks) => add_record(file, 1, &ticks.to_le_bytes()),
        Part::Step(time, label) => add_step(file, time, label),
        Part::Edge(from, to) => add_record(file, 3, &[from, to]),
        Part::Block(cores, ticks) => add_block(file, Block { cores, ticks }),
        Part::HoldBack(cores, from, until) => add_hold_back(file, cores, from, until),
        Part::Late(ticks) => add_record(file, 6, &ticks.to_le_bytes()),
        Part::Record(kind, body) => add_record(file, kind, body),
        Part::Steps(count) => add_steps(file, count),
        Part::Blocks(count) => add_blocks(file, count),
        Part::Bytes(bytes) => file.extend_from_slice(bytes),
    }
}

pub(crate) fn file_of(heap: Global, parts: &[Part<'_>]) -> Result<Vec<u8>, AllocError> {
    let mut file = Vec::new(heap);
    for part in parts {
        add(&mut file, *part)?;
    }
    Ok(file)
}

// The number and the place of a refusal; none where the file is accepted.
pub(crate) fn refusal_in(answer: Result<Layers, Fault>) -> Option<(u8, usize)> {
    answer
        .err()
        .map(|fault| (fault.cause.number(), fault.place))
}
