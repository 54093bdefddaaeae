// Supplies at their edges.
use crate::{Block, Flat, HoldBack, Ladder, Late, Supply, Window};

const LAST: u32 = u32::MAX;

fn hold_back<S>(below: S, cores: u8, from: u32, until: u32) -> HoldBack<S> {
    HoldBack::new(below, Window { cores, from, until })
}

#[test]
fn flat_widths(rt: HostRuntime) {
    assert_eq!(rt; Flat::new(0).width_at(0), 0);
    assert_eq!(rt; Flat::new(64).width_at(LAST), 64);
    assert_eq!(rt; Flat::new(65).width_at(7), 64);
    assert_eq!(rt; Flat::new(255).width_at(LAST), 64);
    assert_eq!(rt; Flat::new(255).cores(), 255);
}

#[test]
fn ladder_blocks_follow_one_another(rt: HostRuntime) {
    let blocks = [
        Block { cores: 2, ticks: 3 },
        Block { cores: 9, ticks: 0 },
        Block { cores: 0, ticks: 2 },
        Block {
            cores: 200,
            ticks: 1,
        },
    ];
    let ladder = Ladder::new(&blocks);
    assert_eq!(rt; ladder.width_at(0), 2);
    assert_eq!(rt; ladder.width_at(2), 2);
    assert_eq!(rt; ladder.width_at(3), 0);
    assert_eq!(rt; ladder.width_at(4), 0);
    assert_eq!(rt; ladder.width_at(5), 64);
    assert_eq!(rt; ladder.width_at(6), 0);
    assert_eq!(rt; ladder.width_at(LAST), 0);
    let empty = Ladder::new(&blocks[0..0]);
    assert_eq!(rt; empty.width_at(0), 0);
}

#[test]
fn ladder_of_300_blocks(rt: HostRuntime) {
    let mut blocks = [Block {
        cores: 1,
        ticks: 65_535,
    }; 300];
    blocks[299] = Block { cores: 7, ticks: 2 };
    let ladder = Ladder::new(&blocks);
    assert_eq!(rt; ladder.width_at(299 * 65_535 - 1), 1);
    assert_eq!(rt; ladder.width_at(299 * 65_535), 7);
    assert_eq!(rt; ladder.width_at(299 * 65_535 + 1), 7);
    assert_eq!(rt; ladder.width_at(299 * 65_535 + 2), 0);
}

#[test]
fn hold_back_windows(rt: HostRuntime) {
    let held = hold_back(Flat::new(5), 3, 10, 12);
    assert_eq!(rt; held.width_at(9), 5);
    assert_eq!(rt; held.width_at(10), 2);
    assert_eq!(rt; held.width_at(11), 2);
    assert_eq!(rt; held.width_at(12), 5);
    let all = hold_back(Flat::new(5), 6, LAST - 1, LAST);
    assert_eq!(rt; all.width_at(LAST - 2), 5);
    assert_eq!(rt; all.width_at(LAST - 1), 0);
    assert_eq!(rt; all.width_at(LAST), 5);
    assert_eq!(rt; hold_back(Flat::new(5), 5, LAST, LAST).width_at(LAST), 5);
    assert_eq!(rt; hold_back(Flat::new(5), 5, 7, 7).width_at(7), 5);
    assert_eq!(rt; hold_back(Flat::new(5), 5, 8, 7).width_at(7), 5);
}

#[test]
fn late_starts(rt: HostRuntime) {
    let blocks = [Block { cores: 1, ticks: 4 }, Block { cores: 2, ticks: 4 }];
    let late = Late::new(Ladder::new(&blocks), 3);
    assert_eq!(rt; late.width_at(0), 1);
    assert_eq!(rt; late.width_at(1), 2);
    assert_eq!(rt; late.width_at(4), 2);
    assert_eq!(rt; late.width_at(5), 0);
    let last = Late::new(Flat::new(9), LAST);
    assert_eq!(rt; last.width_at(0), 9);
    assert_eq!(rt; last.width_at(1), 0);
    assert_eq!(rt; Late::new(Flat::new(9), 1).width_at(LAST - 1), 9);
    assert_eq!(rt; Late::new(Flat::new(9), 1).width_at(LAST), 0);
}

#[test]
fn layers_in_both_orders(rt: HostRuntime) {
    let blocks = [Block {
        cores: 4,
        ticks: 10,
    }];
    // A late start moves the windows below it, and not those above it.
    let over = hold_back(
        Late::new(hold_back(Ladder::new(&blocks), 1, 5, 6), 2),
        2,
        3,
        4,
    );
    assert_eq!(rt; over.width_at(2), 4);
    assert_eq!(rt; over.width_at(3), 1);
    assert_eq!(rt; over.width_at(4), 4);
    let under = Late::new(hold_back(Late::new(Ladder::new(&blocks), 1), 3, 5, 6), 2);
    assert_eq!(rt; under.width_at(2), 4);
    assert_eq!(rt; under.width_at(3), 1);
    assert_eq!(rt; under.width_at(4), 4);
    assert_eq!(rt; under.width_at(7), 0);
    let held_first = Late::new(hold_back(Ladder::new(&blocks), 3, 5, 6), 2);
    let late_first = hold_back(Late::new(Ladder::new(&blocks), 2), 3, 5, 6);
    assert_eq!(rt; held_first.width_at(3), 1);
    assert_eq!(rt; held_first.width_at(5), 4);
    assert_eq!(rt; late_first.width_at(3), 4);
    assert_eq!(rt; late_first.width_at(5), 1);
    assert_eq!(rt; under.by(), 2);
    let window = Window {
        cores: 3,
        from: 5,
        until: 6,
    };
    assert_eq!(rt; under.below().window(), window);
    assert_eq!(rt; under.below().below().below().blocks().len(), 1);
}
