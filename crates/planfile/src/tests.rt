// Files that are accepted: the plan, the blocks and the layers that are read.
use crate::test_files::Part::*;
use crate::test_files::{HIDE, OLD_BLOCK, Part, add, block_at, file_of, refusal_in};
use crate::{Layers, NO_BLOCK, Window, read};
use graph::{Plan, StepSet};
use std::alloc::Global;
use std::process::Abort;
use std::test::Fail;

// The blocks at the front of a list are the ones of so many as `block_at` says, and the rest is zero.
fn filled(rt: &impl Abort, list: &[cores::Block], count: usize) {
    for (place, block) in list.iter().enumerate() {
        let wanted = if place < count {
            block_at(place)
        } else {
            NO_BLOCK
        };
        assert_eq!(rt; *block, wanted);
    }
}

#[test]
fn hide_is_read(rt: HostRuntime) {
    let mut plan = Plan::empty();
    let mut blocks = [OLD_BLOCK; 2];
    assert_eq!(rt; read(HIDE, &mut plan, &mut blocks), Ok(Layers::default()));
    assert_eq!(rt; (plan.count(), plan.deadline()), (6, 10));
    let steps = [
        (0, 1, StepSet::new()),
        (1, 3, StepSet::from([0])),
        (2, 2, StepSet::from([0])),
        (3, 4, StepSet::from([0])),
        (4, 2, StepSet::from([1, 2])),
        (5, 1, StepSet::from([3, 4])),
    ];
    for (step, time, before) in steps {
        assert_eq!(rt; plan.time(step), Some(time));
        assert_eq!(rt; plan.predecessors(step), Some(before));
    }
    assert_eq!(rt; plan.time(6), None);
    assert_eq!(rt; plan.predecessors(6), None);
    let read_block = cores::Block {
        cores: 2,
        ticks: 10,
    };
    assert_eq!(rt; blocks, [read_block, NO_BLOCK]);
}

#[test]
fn sixty_four_steps(rt: HostRuntime) -> Result<(), Fail> {
    let file = file_of(
        rt.alloc(),
        &[Deadline(10), Steps(64), Edge(62, 63), Block(1, 10)],
    )?;
    let mut plan = Plan::empty();
    read(&file, &mut plan, &mut [NO_BLOCK; 1])?;
    assert_eq!(rt; (plan.count(), plan.deadline()), (64, 10));
    for step in 0..64u8 {
        assert_eq!(rt; plan.time(step), Some(u16::from(step) + 1));
    }
    assert_eq!(rt; plan.time(64), None);
    assert_eq!(rt; plan.predecessors(62), Some(StepSet::new()));
    assert_eq!(rt; plan.predecessors(63), Some(StepSet::from([62])));
    Ok(())
}

#[test]
fn lists_of_many_lengths(rt: HostRuntime) -> Result<(), Fail> {
    let heap = rt.alloc();
    // places of the list, blocks of the file, and the number and place of the refusal
    let cases = [
        (0, 0, Some((9, 12))),
        (0, 1, Some((6, 12))),
        (1, 0, Some((9, 12))),
        (1, 1, None),
        (1, 2, Some((6, 19))),
        (63, 1, None),
        (63, 63, None),
        (63, 64, Some((6, 453))),
        (64, 63, None),
        (64, 64, None),
        (64, 65, Some((6, 460))),
        (65, 64, None),
        (65, 65, None),
        (65, 66, Some((6, 467))),
    ];
    for (places, blocks, refusal) in cases {
        let mut file = file_of(heap, &[Deadline(10), Steps(1)])?;
        add(&mut file, Blocks(blocks))?;
        let mut list = vec![in heap; OLD_BLOCK; places]?;
        let answer = read(&file, &mut Plan::empty(), &mut list);
        assert_eq!(rt; refusal_in(answer), refusal);
        filled(&rt, &list, if refusal.is_none() { blocks } else { 0 });
    }
    Ok(())
}

// Reads a file that fills every place of a plan and of 64 blocks.
fn read_full(
    rt: &impl Abort,
    heap: Global,
    plan: &mut Plan,
    blocks: &mut [cores::Block],
) -> Result<(), Fail> {
    let file = file_of(
        heap,
        &[
            Deadline(20_000),
            Steps(64),
            Edge(0, 1),
            Blocks(64),
            HoldBack(1, 2, 3),
            Late(4),
        ],
    )?;
    read(&file, plan, blocks)?;
    assert_eq!(rt; (plan.count(), plan.volume()), (64, 2080));
    filled(rt, blocks, 64);
    Ok(())
}

#[test]
fn nothing_old_is_left_by_an_accepted_file(rt: HostRuntime) -> Result<(), Fail> {
    let heap = rt.alloc();
    let mut plan = Plan::empty();
    let mut blocks = [OLD_BLOCK; 65];
    read_full(&rt, heap, &mut plan, &mut blocks)?;
    let file = file_of(heap, &[Deadline(5), Step(7, b""), Step(8, b""), Blocks(2)])?;
    assert_eq!(rt; read(&file, &mut plan, &mut blocks), Ok(Layers::default()));
    assert_eq!(rt; (plan.count(), plan.deadline()), (2, 5));
    assert_eq!(rt; (plan.volume(), plan.length()), (15, 8));
    assert_eq!(rt; plan.predecessors(1), Some(StepSet::new()));
    filled(&rt, &blocks, 2);
    Ok(())
}

#[test]
fn nothing_old_is_left_by_a_refused_file(rt: HostRuntime) -> Result<(), Fail> {
    let heap = rt.alloc();
    let mut plan = Plan::empty();
    let mut blocks = [OLD_BLOCK; 65];
    read_full(&rt, heap, &mut plan, &mut blocks)?;
    let file = file_of(heap, &[Deadline(5), Steps(2), Blocks(2), Late(0)])?;
    let answer = read(&file, &mut plan, &mut blocks);
    assert_eq!(rt; refusal_in(answer), Some((5, 32)));
    assert_eq!(rt; (plan.count(), plan.deadline()), (0, 0));
    assert_eq!(rt; (plan.volume(), plan.length()), (0, 0));
    assert_eq!(rt; (plan.time(0), plan.predecessors(0)), (None, None));
    filled(&rt, &blocks, 0);
    Ok(())
}

// A file of one step and one block, and what is read of it.
#[derive(Clone, Copy)]
struct Case<'a> {
    parts: &'a [Part<'a>],
    deadline: u16,
    time: u16,
    block: cores::Block,
    layers: Layers,
}

fn is_read(rt: &impl Abort, n: usize, file: &[u8], case: &Case<'_>) -> Result<(), Fail> {
    let mut plan = Plan::empty();
    let mut blocks = [OLD_BLOCK; 1];
    assert_eq!(rt;
        read(file, &mut plan, &mut blocks),
        Ok(case.layers),
        "case {n}"
    );
    assert_eq!(rt; plan.deadline(), case.deadline, "case {n}");
    assert_eq!(rt; plan.time(0), Some(case.time), "case {n}");
    assert_eq!(rt; blocks, [case.block], "case {n}");
    Ok(())
}

#[test]
fn values_and_layers(rt: HostRuntime) -> Result<(), Fail> {
    let cases = [
        Case {
            parts: &[Deadline(1), Step(1, b""), Block(1, 1)],
            deadline: 1,
            time: 1,
            block: cores::Block { cores: 1, ticks: 1 },
            layers: Layers::default(),
        },
        Case {
            parts: &[
                Deadline(20_000),
                Step(20_000, b"!~!~!~!~!~!~!~!~"),
                Block(64, 20_000),
                HoldBack(64, 65_534, 65_535),
                Late(20_000),
            ],
            deadline: 20_000,
            time: 20_000,
            block: cores::Block {
                cores: 64,
                ticks: 20_000,
            },
            layers: Layers {
                hold_back: Some(Window {
                    cores: 64,
                    from: 65_534,
                    until: 65_535,
                }),
                late: Some(20_000),
            },
        },
        Case {
            parts: &[Deadline(2), Step(3, b""), Block(4, 5), HoldBack(1, 0, 1)],
            deadline: 2,
            time: 3,
            block: cores::Block { cores: 4, ticks: 5 },
            layers: Layers {
                hold_back: Some(Window {
                    cores: 1,
                    from: 0,
                    until: 1,
                }),
                late: None,
            },
        },
        Case {
            parts: &[Deadline(2), Step(3, b""), Block(4, 5), Late(1)],
            deadline: 2,
            time: 3,
            block: cores::Block { cores: 4, ticks: 5 },
            layers: Layers {
                hold_back: None,
                late: Some(1),
            },
        },
        // the lower byte comes first
        Case {
            parts: &[
                Bytes(b"\x02\0\x01\0\x01\x02"),
                Bytes(b"\x03\0\x02\0\x03\x04a"),
                Bytes(b"\x03\0\x04\0\x05\x06\x07"),
                Bytes(b"\x05\0\x05\0\x08\x09\x0a\x0b\x0c"),
                Bytes(b"\x02\0\x06\0\x0d\x0e"),
            ],
            deadline: 0x0201,
            time: 0x0403,
            block: cores::Block {
                cores: 0x05,
                ticks: 0x0706,
            },
            layers: Layers {
                hold_back: Some(Window {
                    cores: 0x08,
                    from: 0x0a09,
                    until: 0x0c0b,
                }),
                late: Some(0x0e0d),
            },
        },
    ];
    for (n, case) in cases.iter().enumerate() {
        let file = file_of(rt.alloc(), case.parts)?;
        is_read(&rt, n, &file, case)?;
    }
    Ok(())
}
