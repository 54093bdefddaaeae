// The marking test on worked numbers and at its edges.
use crate::{Certificate, MarkingTest, NotCertified, certify};
use cores::{Block, Flat, HoldBack, Ladder, Window};
use graph::{Draft, Plan, Refusal};
use std::process::Abort;
use std::test::Fail;

// A job from tick 0 on a ladder: its least yield, and the least ceiling under which it passes, if any.
fn worked(
    rt: &impl Abort,
    blocks: &[Block],
    volume: u64,
    length: u32,
    deadline: u32,
    least: u64,
    ceiling: Option<u8>,
) {
    let test = MarkingTest {
        first: 0,
        deadline,
        length,
    };
    let ladder = Ladder::new(blocks);
    assert_eq!(rt; test.least_yield(&ladder, 64), least);
    assert_eq!(rt; test.passes(&ladder, 64, volume), ceiling.is_some());
    assert_eq!(rt; test.least_ceiling(&ladder, volume), ceiling);
}

fn block(cores: u8, ticks: u16) -> Block {
    Block { cores, ticks }
}

#[test]
fn worked_jobs(rt: HostRuntime) {
    worked(&rt, &[block(2, 9), block(3, 6)], 26, 5, 15, 26, Some(3));
    worked(&rt, &[block(2, 10), block(3, 5)], 26, 5, 15, 25, None);
    worked(&rt, &[block(2, 15)], 26, 5, 15, 25, None);
    worked(
        &rt,
        &[block(1, 1), block(3, 1), block(3, 3)],
        9,
        2,
        5,
        9,
        Some(3),
    );
    worked(&rt, &[block(4, 7)], 10, 6, 7, 10, Some(4));
    worked(&rt, &[block(3, 7)], 10, 6, 7, 9, None);
    worked(&rt, &[block(4, 5)], 5, 5, 5, 5, Some(1));
    worked(&rt, &[block(4, 5)], 6, 5, 5, 5, None);
    worked(&rt, &[block(4, 2)], 3, 3, 2, 2, None);
    worked(&rt, &[block(1, 1)], 1, 1, 1, 1, Some(1));
}

#[test]
fn widest_ticks_are_marked_and_not_the_last(rt: HostRuntime) {
    // Marking the last five ticks would give 31.
    worked(&rt, &[block(3, 6), block(2, 9)], 26, 5, 15, 26, Some(3));
}

#[test]
fn ladders_shorter_and_longer_than_the_deadline(rt: HostRuntime) {
    worked(&rt, &[block(2, 4)], 7, 1, 10, 7, Some(2));
    worked(&rt, &[block(2, 40)], 19, 1, 10, 19, Some(2));
}

#[test]
fn ceilings(rt: HostRuntime) {
    let test = MarkingTest {
        first: 0,
        deadline: 10,
        length: 7,
    };
    let supply = Flat::new(255);
    assert_eq!(rt; test.least_yield(&supply, 0), 0);
    assert_eq!(rt; test.least_yield(&supply, 1), 10);
    assert_eq!(rt; test.least_yield(&supply, 2), 13);
    assert_eq!(rt; test.least_yield(&supply, 64), 199);
    assert_eq!(rt; test.least_yield(&supply, 255), 199);
    assert!(rt; test.passes(&supply, 0, 0));
    assert!(rt; !test.passes(&supply, 0, 1));
    assert!(rt; test.passes(&supply, 2, 13));
    assert!(rt; !test.passes(&supply, 2, 14));
    assert!(rt; test.passes(&supply, 255, 199));
    assert!(rt; !test.passes(&supply, 255, 200));
    assert_eq!(rt; test.least_ceiling(&supply, 0), Some(1));
    assert_eq!(rt; test.least_ceiling(&supply, 10), Some(1));
    assert_eq!(rt; test.least_ceiling(&supply, 11), Some(2));
    assert_eq!(rt; test.least_ceiling(&supply, 199), Some(64));
    assert_eq!(rt; test.least_ceiling(&supply, 200), None);
    assert_eq!(rt; test.least_ceiling(&supply, u64::MAX), None);
}

// The least yield of three cores in each of the ticks.
fn on_three(first: u32, deadline: u32, length: u32) -> u64 {
    let test = MarkingTest {
        first,
        deadline,
        length,
    };
    test.least_yield(&Flat::new(3), 64)
}

#[test]
fn lengths_and_ranges(rt: HostRuntime) {
    assert_eq!(rt; on_three(0, 10, 0), 30);
    assert_eq!(rt; on_three(0, 10, 10), 10);
    assert_eq!(rt; on_three(0, 10, 11), 10);
    assert_eq!(rt; on_three(0, 10, u32::MAX), 10);
    assert_eq!(rt; on_three(5, 10, 2), 11);
    assert_eq!(rt; on_three(10, 10, 2), 0);
    assert_eq!(rt; on_three(11, 10, 2), 0);
    assert_eq!(rt; on_three(u32::MAX, 0, 0), 0);
    assert_eq!(rt; on_three(u32::MAX - 2, u32::MAX, 1), 4);
}

#[test]
fn ticks_without_cores_yield_nothing(rt: HostRuntime) {
    // Marking a tick without cores would gain a tick, so none is marked.
    let test = MarkingTest {
        first: 0,
        deadline: 6,
        length: 4,
    };
    let supply = HoldBack::new(
        Flat::new(2),
        Window {
            cores: 2,
            from: 2,
            until: 4,
        },
    );
    assert_eq!(rt; test.least_yield(&supply, 64), 4);
    assert_eq!(rt; test.least_ceiling(&supply, 4), Some(1));
    assert_eq!(rt; test.least_ceiling(&supply, 5), None);
}

// Six steps of a hide: scan, three searches, nesting, knife path. The tests of `graph` build it too, but tests of another crate can't be called.
fn hide() -> Result<Plan, Refusal> {
    let mut draft = Draft::new();
    draft.set_deadline(10)?;
    for time in [1, 3, 2, 4, 2, 1] {
        draft.add_step(time)?;
    }
    for (from, to) in [(0, 1), (0, 2), (0, 3), (1, 4), (2, 4), (3, 5), (4, 5)] {
        draft.add_edge(from, to)?;
    }
    draft.finish()
}

#[test]
fn plans_are_certified(rt: HostRuntime) -> Result<(), Fail> {
    let plan = hide()?;
    let whole = [block(2, 10)];
    let two = certify(&plan, &Ladder::new(&whole));
    let wanted = Certificate {
        volume: 13,
        length: 7,
        deadline: 10,
        least: 13,
        certified: true,
    };
    assert_eq!(rt; two, wanted);
    assert_eq!(rt; two.refusal(), None);
    let shorter = [block(2, 9)];
    let nine = certify(&plan, &Ladder::new(&shorter));
    assert_eq!(rt; nine.least, 11);
    assert!(rt; !nine.certified);
    assert_eq!(rt; nine.refusal().map(NotCertified::number), Some(11));
    let empty = certify(&Plan::empty(), &Flat::new(64));
    assert_eq!(rt; empty.least, 0);
    assert!(rt; !empty.certified);
    Ok(())
}
