// The policies on empty, single, full and scattered sets.
use crate::{Lowest, NO_STEP, Policy, Ranked, Round};
use graph::StepSet;

fn full() -> StepSet {
    let mut set = StepSet::new();
    for step in 0..NO_STEP {
        set.insert(step);
    }
    set
}

#[test]
fn lowest_number_first(rt: HostRuntime) {
    let mut policy = Lowest::new();
    assert_eq!(rt; policy.pick(StepSet::new()), 64);
    assert_eq!(rt; policy.pick(StepSet::from([63])), 63);
    assert_eq!(rt; policy.pick(full()), 0);
    assert_eq!(rt; policy.pick(StepSet::from([50, 7, 31])), 7);
}

#[test]
fn greatest_rank_first(rt: HostRuntime) {
    let mut rising = [0; 64];
    let mut falling = [0; 64];
    for (rank, step) in rising.iter_mut().zip(0..64) {
        *rank = step;
    }
    for (rank, step) in falling.iter_mut().zip((192..=255).rev()) {
        *rank = step;
    }
    let mut policy = Ranked::new(rising);
    assert_eq!(rt; policy.pick(StepSet::new()), 64);
    assert_eq!(rt; policy.pick(StepSet::from([0])), 0);
    assert_eq!(rt; policy.pick(full()), 63);
    assert_eq!(rt; policy.pick(StepSet::from([7, 50, 31])), 50);
    assert_eq!(rt; policy.rank(50), Some(50));
    assert_eq!(rt; policy.rank(64), None);
    policy = Ranked::new(falling);
    assert_eq!(rt; policy.pick(StepSet::new()), 64);
    assert_eq!(rt; policy.pick(StepSet::from([63])), 63);
    assert_eq!(rt; policy.pick(full()), 0);
    assert_eq!(rt; policy.pick(StepSet::from([50, 7, 31])), 7);
    assert_eq!(rt; policy.rank(63), Some(192));
}

#[test]
fn lower_number_on_a_tie(rt: HostRuntime) {
    let mut policy = Ranked::new([9; 64]);
    assert_eq!(rt; policy.pick(StepSet::new()), 64);
    assert_eq!(rt; policy.pick(StepSet::from([40])), 40);
    assert_eq!(rt; policy.pick(full()), 0);
    assert_eq!(rt; policy.pick(StepSet::from([50, 7, 31])), 7);
    let mut ranks = [0; 64];
    ranks[31] = 255;
    ranks[50] = 255;
    policy = Ranked::new(ranks);
    assert_eq!(rt; policy.pick(full()), 31);
    assert_eq!(rt; policy.pick(StepSet::from([63, 7])), 7);
}

#[test]
fn three_rounds(rt: HostRuntime) {
    let mut policy = Round::new();
    assert_eq!(rt; policy.last(), 63);
    assert_eq!(rt; policy.pick(StepSet::new()), 64);
    assert_eq!(rt; policy.last(), 63);
    let set = StepSet::from([0, 9, 63]);
    for _ in 0..3 {
        assert_eq!(rt; policy.pick(set), 0);
        assert_eq!(rt; policy.pick(set), 9);
        assert_eq!(rt; policy.pick(set), 63);
        assert_eq!(rt; policy.last(), 63);
    }
    for _ in 0..3 {
        for step in 0..NO_STEP {
            assert_eq!(rt; policy.pick(full()), step);
        }
    }
    assert_eq!(rt; policy.pick(full()), 0);
}

#[test]
fn round_over_changing_sets(rt: HostRuntime) {
    let mut policy = Round::new();
    assert_eq!(rt; policy.pick(StepSet::from([20])), 20);
    assert_eq!(rt; policy.pick(StepSet::from([20])), 20);
    assert_eq!(rt; policy.pick(StepSet::from([5, 20, 21])), 21);
    assert_eq!(rt; policy.pick(StepSet::new()), 64);
    assert_eq!(rt; policy.last(), 21);
    assert_eq!(rt; policy.pick(StepSet::from([5, 20])), 5);
    assert_eq!(rt; policy.pick(StepSet::from([4, 6])), 6);
    assert_eq!(rt; policy.pick(full()), 7);
    assert_eq!(rt; policy.last(), 7);
}
