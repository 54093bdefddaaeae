// Files that are refused: by which number, at which byte, and what they leave behind.
use crate::test_files::Part::*;
use crate::test_files::{HIDE, OLD_BLOCK, Part, add, file_of, refusal_in};
use crate::{Cause, NO_BLOCK, read};
use graph::Plan;
use std::alloc::Global;
use std::process::Abort;
use std::test::Fail;

// A file is refused by a number at a place, and nothing is left of an older plan and older blocks. A failure names the case.
fn refused(
    rt: &impl Abort,
    case: usize,
    file: &[u8],
    number: u8,
    place: usize,
) -> Result<(), Fail> {
    let mut plan = Plan::empty();
    let mut blocks = [OLD_BLOCK; 64];
    read(HIDE, &mut plan, &mut blocks)?;
    blocks.fill(OLD_BLOCK);
    let answer = read(file, &mut plan, &mut blocks);
    assert_eq!(rt; refusal_in(answer), Some((number, place)), "case {case}");
    assert!(rt; plan.is_empty(), "case {case}");
    assert_eq!(rt; (plan.deadline(), plan.volume()), (0, 0), "case {case}");
    assert_eq!(rt; blocks, [NO_BLOCK; 64], "case {case}");
    Ok(())
}

// Each of some records, alone behind good ones, is refused by a number at the byte at which it begins.
fn refuses(
    rt: &impl Abort,
    heap: Global,
    number: u8,
    good: &[Part<'_>],
    bad: &[Part<'_>],
) -> Result<(), Fail> {
    for (case, record) in bad.iter().enumerate() {
        let mut file = file_of(heap, good)?;
        let place = file.len();
        add(&mut file, *record)?;
        refused(rt, case, &file, number, place)?;
    }
    Ok(())
}

// A file, and the number and the place of its refusal.
#[derive(Clone, Copy)]
struct Case<'a> {
    parts: &'a [Part<'a>],
    number: u8,
    place: usize,
}

fn all_refused(rt: &impl Abort, heap: Global, cases: &[Case<'_>]) -> Result<(), Fail> {
    for (n, case) in cases.iter().enumerate() {
        let file = file_of(heap, case.parts)?;
        refused(rt, n, &file, case.number, case.place)?;
    }
    Ok(())
}

#[test]
fn causes_have_numbers(rt: HostRuntime) {
    let causes = [
        (Cause::CutShort, 1),
        (Cause::UnknownKind, 2),
        (Cause::BodyLength, 3),
        (Cause::OutOfOrder, 4),
        (Cause::OutOfRange, 5),
        (Cause::NoRoom, 6),
        (Cause::NotRising, 7),
        (Cause::EdgeTwice, 8),
        (Cause::Incomplete, 9),
        (Cause::ImpliedEdge, 10),
    ];
    for (cause, number) in causes {
        assert_eq!(rt; cause.number(), number);
    }
}

#[test]
fn each_cause_has_its_place(rt: HostRuntime) -> Result<(), Fail> {
    let cases = [
        Case {
            parts: &[Deadline(10), Bytes(&[3, 0, 2, 0, 5, 0])],
            number: 1,
            place: 6,
        },
        Case {
            parts: &[Deadline(10), Record(7, &[1, 0]), Steps(1)],
            number: 2,
            place: 6,
        },
        Case {
            parts: &[Deadline(10), Step(1, b"scan"), Record(4, &[2, 10])],
            number: 3,
            place: 16,
        },
        Case {
            parts: &[Deadline(10), Steps(1), Block(1, 10), Steps(1)],
            number: 4,
            place: 19,
        },
        Case {
            parts: &[Deadline(10), Step(0, b""), Block(1, 10)],
            number: 5,
            place: 6,
        },
        Case {
            parts: &[Deadline(10), Steps(65), Block(1, 10)],
            number: 6,
            place: 390,
        },
        Case {
            parts: &[Deadline(10), Steps(1), Blocks(65)],
            number: 6,
            place: 460,
        },
        Case {
            parts: &[Deadline(10), Steps(2), Edge(1, 0), Block(1, 10)],
            number: 7,
            place: 18,
        },
        Case {
            parts: &[Deadline(10), Steps(2), Edge(0, 1), Edge(0, 1)],
            number: 8,
            place: 24,
        },
        Case {
            parts: &[Deadline(10), Steps(1)],
            number: 9,
            place: 12,
        },
        Case {
            parts: &[
                Deadline(10),
                Steps(3),
                Edge(0, 1),
                Edge(0, 2),
                Edge(1, 2),
                Block(1, 10),
            ],
            number: 10,
            place: 30,
        },
    ];
    all_refused(&rt, rt.alloc(), &cases)
}

#[test]
fn records_that_are_cut_short(rt: HostRuntime) -> Result<(), Fail> {
    let cut = [
        Bytes(&[2]),
        Bytes(&[2, 0, 1]),
        Bytes(&[2, 0, 1, 0]),
        Bytes(&[2, 0, 1, 0, 10]),
        Bytes(&[2, 1, 1, 0, 10, 0]),
        Bytes(&[255, 255, 6, 0, 10, 0]),
    ];
    refuses(&rt, rt.alloc(), 1, &[], &cut)?;
    refuses(
        &rt,
        rt.alloc(),
        1,
        &[Deadline(10), Steps(1), Block(1, 10)],
        &cut,
    )
}

#[test]
fn unknown_kinds(rt: HostRuntime) -> Result<(), Fail> {
    let unknown = [
        Record(0, b""),
        Record(7, &[1, 0]),
        Record(0x0101, &[10, 0]),
        Record(0x0200, &[10, 0]),
        Record(u16::MAX, &[10, 0]),
    ];
    refuses(&rt, rt.alloc(), 2, &[], &unknown)?;
    refuses(&rt, rt.alloc(), 2, &[Deadline(10), Steps(1)], &unknown)
}

#[test]
fn bodies_too_short_or_too_long(rt: HostRuntime) -> Result<(), Fail> {
    let bad = [
        Record(1, &[10]),
        Record(1, &[10, 0, 0]),
        Record(1, &[1; 258]),
        Record(2, &[1]),
        Record(2, &[33; 19]),
        Record(3, &[0]),
        Record(3, &[0, 1, 0]),
        Record(4, &[2, 10]),
        Record(4, &[2, 10, 0, 0]),
        Record(5, &[1, 0, 0, 1]),
        Record(5, &[1, 0, 0, 1, 0, 0]),
        Record(6, &[1]),
        Record(6, &[1, 0, 0]),
        Record(6, b""),
    ];
    refuses(&rt, rt.alloc(), 3, &[], &bad)
}

#[test]
fn kinds_out_of_order(rt: HostRuntime) -> Result<(), Fail> {
    let heap = rt.alloc();
    let all = [
        Deadline(10),
        Steps(1),
        Edge(0, 1),
        Block(1, 10),
        HoldBack(1, 2, 3),
        Late(1),
    ];
    refuses(&rt, heap, 4, &[Deadline(10)], &all[0..1])?;
    refuses(&rt, heap, 4, &[Steps(2)], &all[0..1])?;
    refuses(&rt, heap, 4, &[Steps(2), Edge(0, 1)], &all[0..2])?;
    refuses(&rt, heap, 4, &[Block(1, 10)], &all[0..3])?;
    refuses(&rt, heap, 4, &[HoldBack(1, 0, 1)], &all[0..5])?;
    refuses(&rt, heap, 4, &[Late(1)], &all)
}

#[test]
fn values_out_of_range(rt: HostRuntime) -> Result<(), Fail> {
    let bad = [
        Deadline(0),
        Deadline(20_001),
        Deadline(u16::MAX),
        Step(0, b""),
        Step(20_001, b""),
        Step(1, b" scan"),
        Step(1, b"flaw-finder-001\x7f"),
        Step(1, b"a\0b"),
        Step(1, &[255]),
        Block(0, 10),
        Block(65, 10),
        Block(1, 0),
        Block(1, 20_001),
        HoldBack(0, 0, 1),
        HoldBack(65, 0, 1),
        HoldBack(1, 0, 0),
        HoldBack(1, 5, 4),
        HoldBack(1, u16::MAX, u16::MAX),
        Late(0),
        Late(20_001),
    ];
    refuses(&rt, rt.alloc(), 5, &[], &bad)
}

#[test]
fn no_room(rt: HostRuntime) -> Result<(), Fail> {
    let heap = rt.alloc();
    refuses(&rt, heap, 6, &[Deadline(10), Steps(64)], &[Step(1, b"")])?;
    refuses(&rt, heap, 6, &[Deadline(10), Blocks(64)], &[Block(1, 1)])
}

#[test]
fn edges_that_do_not_rise_or_come_twice(rt: HostRuntime) -> Result<(), Fail> {
    let heap = rt.alloc();
    let not_rising = [
        Edge(1, 0),
        Edge(1, 1),
        Edge(1, 2),
        Edge(2, 3),
        Edge(0, 64),
        Edge(254, 255),
    ];
    refuses(&rt, heap, 7, &[Deadline(10), Steps(2)], &not_rising)?;
    refuses(&rt, heap, 7, &[Deadline(10), Steps(64)], &[Edge(63, 64)])?;
    let edges = [Edge(0, 2), Edge(0, 1), Edge(1, 2)];
    refuses(
        &rt,
        heap,
        8,
        &[Steps(3), edges[0], edges[1], edges[2]],
        &edges,
    )
}

// The causes are tried in the order 1, 2, 3, 4, 6, 5, 7, 8. No record meets 5 and 7, since an edge has no value with a
// range of its own. None meets 7 and 8, since the earlier edge would be bad itself, and decide.
#[test]
fn two_causes_in_one_record(rt: HostRuntime) -> Result<(), Fail> {
    let heap = rt.alloc();
    refuses(&rt, heap, 1, &[Deadline(10)], &[Bytes(&[1, 0, 9, 0])])?;
    refuses(&rt, heap, 2, &[Deadline(10)], &[Record(9, b"")])?;
    refuses(&rt, heap, 3, &[Steps(1)], &[Record(1, &[10, 0, 0])])?;
    refuses(&rt, heap, 4, &[Steps(64), Edge(0, 1)], &[Step(1, b"")])?;
    refuses(&rt, heap, 6, &[Steps(64)], &[Step(0, b""), Step(1, b" ")])?;
    refuses(&rt, heap, 6, &[Blocks(64)], &[Block(0, 1), Block(1, 0)])?;
    // 4 comes before each that is left of an edge, and before 5
    let edge = [Steps(2), Edge(0, 1), Block(1, 1)];
    refuses(&rt, heap, 4, &edge, &[Edge(1, 0), Edge(0, 1), Deadline(0)])
}

#[test]
fn the_first_bad_record_decides(rt: HostRuntime) -> Result<(), Fail> {
    let cases = [
        Case {
            parts: &[Deadline(10), Step(0, b""), Record(7, b"")],
            number: 5,
            place: 6,
        },
        Case {
            parts: &[Deadline(10), Record(7, b""), Step(0, b"")],
            number: 2,
            place: 6,
        },
        Case {
            parts: &[Steps(2), Edge(1, 1), Edge(1, 1), Bytes(&[0])],
            number: 7,
            place: 12,
        },
        Case {
            parts: &[Steps(3), Edge(0, 1), Edge(0, 2), Edge(1, 2), Block(0, 1)],
            number: 5,
            place: 36,
        },
    ];
    all_refused(&rt, rt.alloc(), &cases)
}

#[test]
fn beginnings_of_files(rt: HostRuntime) -> Result<(), Fail> {
    let cases = [
        Case {
            parts: &[Bytes(b"")],
            number: 9,
            place: 0,
        },
        Case {
            parts: &[Bytes(&[2, 0, 1])],
            number: 1,
            place: 0,
        },
        Case {
            parts: &[Steps(1), Block(1, 10)],
            number: 9,
            place: 13,
        },
        Case {
            parts: &[Steps(1), Deadline(10), Block(1, 10)],
            number: 4,
            place: 6,
        },
        Case {
            parts: &[Edge(0, 1)],
            number: 7,
            place: 0,
        },
        Case {
            parts: &[Late(1)],
            number: 9,
            place: 6,
        },
    ];
    all_refused(&rt, rt.alloc(), &cases)
}

#[test]
fn something_is_missing(rt: HostRuntime) -> Result<(), Fail> {
    let cases = [
        Case {
            parts: &[Steps(1), Block(1, 10), HoldBack(1, 0, 1), Late(1)],
            number: 9,
            place: 28,
        },
        Case {
            parts: &[Deadline(10), Block(1, 10)],
            number: 9,
            place: 13,
        },
        Case {
            parts: &[Deadline(10), Steps(1), HoldBack(1, 0, 1), Late(1)],
            number: 9,
            place: 27,
        },
        // 9 comes before 10
        Case {
            parts: &[Deadline(10), Steps(3), Edge(0, 1), Edge(0, 2), Edge(1, 2)],
            number: 9,
            place: 42,
        },
    ];
    all_refused(&rt, rt.alloc(), &cases)
}

#[test]
fn the_first_implied_edge_is_named(rt: HostRuntime) -> Result<(), Fail> {
    let heap = rt.alloc();
    // edges behind a deadline and four steps, and the place of the one that is named
    let cases: [(&[Part<'_>], usize); 4] = [
        (&[Edge(0, 1), Edge(1, 2), Edge(0, 2)], 42),
        (&[Edge(0, 3), Edge(0, 1), Edge(1, 2), Edge(2, 3)], 30),
        (
            &[Edge(0, 1), Edge(1, 3), Edge(0, 3), Edge(1, 2), Edge(2, 3)],
            36,
        ),
        (
            &[Edge(0, 1), Edge(0, 3), Edge(1, 3), Edge(1, 2), Edge(2, 3)],
            36,
        ),
    ];
    for (n, &(edges, place)) in cases.iter().enumerate() {
        let mut file = file_of(heap, &[Deadline(10), Steps(4)])?;
        file.extend_from_slice(&file_of(heap, edges)?)?;
        add(&mut file, Block(1, 10))?;
        refused(&rt, n, &file, 10, place)?;
    }
    Ok(())
}
