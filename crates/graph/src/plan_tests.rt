// Plans that are built and refused, and what is measured of them.
ghost use Rattle.std.specs.Prelude.{◌≡◌, ℕ, ◌+◌, ◌-◌, ◌^◌, min};
ghost use Rattle.std.proofs.Common.{rules};

use crate::{Draft, Measure, Plan, Refusal, StepSet};
use std::test::Fail;

// How many paths end at a step: joining two equal counts doubles them.
struct PathCount;

impl Measure for PathCount {
    type Value = u32;

    ghost start = { λ _. 1 };

    ghost join = { λ _ a b. min (a + b) (2 ^ 32 - 1) };

    ghost carry = { λ _ value step time. value };

    ghost commutes = { Prim.search rules };

    ghost groups = { Prim.search rules };

    ghost spreads = { Prim.search rules };

    fn start(&self) -> u32 {
        1
    }

    fn join(&self, a: u32, b: u32) -> u32 {
        a.saturating_add(b)
    }

    fn carry(&self, value: u32, _step: u8, _time: u16) -> u32 {
        value
    }
}

fn draft_of(deadline: u16, times: &[u16], edges: &[(u8, u8)]) -> Result<Draft, Refusal> {
    let mut draft = Draft::new();
    draft.set_deadline(deadline)?;
    for time in times {
        draft.add_step(*time)?;
    }
    for (from, to) in edges {
        draft.add_edge(*from, *to)?;
    }
    Ok(draft)
}

// What finishing the draft refuses by.
fn refusal_of(draft: &Draft) -> Option<Refusal> {
    draft.finish().err()
}

// Six steps of a hide: scan, three searches, nesting, knife path.
fn hide() -> Result<Plan, Refusal> {
    draft_of(
        10,
        &[1, 3, 2, 4, 2, 1],
        &[(0, 1), (0, 2), (0, 3), (1, 4), (2, 4), (3, 5), (4, 5)],
    )?
    .finish()
}

#[test]
fn hide_is_measured(rt: HostRuntime) -> Result<(), Fail> {
    let plan = hide()?;
    assert_eq!(rt; plan.count(), 6);
    assert_eq!(rt; plan.deadline(), 10);
    assert_eq!(rt; plan.time(3), Some(4));
    assert_eq!(rt; plan.time(6), None);
    assert_eq!(rt; plan.predecessors(4), Some(StepSet::from([1, 2])));
    assert_eq!(rt; plan.predecessors(255), None);
    assert_eq!(rt; plan.volume(), 13);
    assert_eq!(rt; plan.length(), 7);
    assert_eq!(rt; plan.length_at(0), Some(1));
    assert_eq!(rt; plan.length_at(3), Some(5));
    assert_eq!(rt; plan.length_at(4), Some(6));
    assert_eq!(rt; plan.length_at(5), Some(7));
    assert_eq!(rt; plan.length_at(6), None);
    assert_eq!(rt; plan.ancestors(0), Some(StepSet::from([])));
    assert_eq!(rt; plan.ancestors(1), Some(StepSet::from([0])));
    assert_eq!(rt; plan.ancestors(2), Some(StepSet::from([0])));
    assert_eq!(rt; plan.ancestors(3), Some(StepSet::from([0])));
    assert_eq!(rt; plan.ancestors(4), Some(StepSet::from([0, 1, 2])));
    assert_eq!(rt; plan.ancestors(5), Some(StepSet::from([0, 1, 2, 3, 4])));
    assert_eq!(rt; plan.ancestors(6), None);
    Ok(())
}

#[test]
fn each_path_counts_once(rt: HostRuntime) -> Result<(), Fail> {
    let counts = hide()?.walk(&PathCount);
    assert_eq!(rt; counts[4], 2);
    assert_eq!(rt; counts[5], 3);
    assert_eq!(rt; counts[6], 1);
    Ok(())
}

#[test]
fn the_empty_plan(rt: HostRuntime) {
    let plan = Plan::empty();
    assert!(rt; plan.is_empty());
    assert_eq!(rt; plan.deadline(), 0);
    assert_eq!(rt; plan.volume(), 0);
    assert_eq!(rt; plan.length(), 0);
    assert_eq!(rt; plan.time(0), None);
}

#[test]
fn values_out_of_range_are_refused(rt: HostRuntime) {
    let mut draft = Draft::new();
    assert_eq!(rt; draft.set_deadline(0), Err(Refusal::OutOfRange));
    assert_eq!(rt; draft.set_deadline(20_001), Err(Refusal::OutOfRange));
    assert_eq!(rt; draft.set_deadline(20_000), Ok(()));
    assert_eq!(rt; draft.add_step(0), Err(Refusal::OutOfRange));
    assert_eq!(rt; draft.add_step(20_001), Err(Refusal::OutOfRange));
    assert_eq!(rt; draft.add_step(1), Ok(0));
    assert_eq!(rt; draft.add_step(20_000), Ok(1));
}

#[test]
fn edges_are_refused(rt: HostRuntime) -> Result<(), Fail> {
    let mut draft = draft_of(9, &[1, 1, 1], &[])?;
    assert_eq!(rt; draft.add_edge(1, 1), Err(Refusal::NotRising));
    assert_eq!(rt; draft.add_edge(2, 1), Err(Refusal::NotRising));
    assert_eq!(rt; draft.add_edge(2, 3), Err(Refusal::NotRising));
    assert_eq!(rt; draft.add_edge(254, 255), Err(Refusal::NotRising));
    assert_eq!(rt; draft.add_edge(0, 2), Ok(()));
    assert_eq!(rt; draft.add_edge(0, 2), Err(Refusal::EdgeTwice));
    assert_eq!(rt; draft.add_edge(0, 1), Ok(()));
    assert_eq!(rt; draft.add_edge(1, 2), Ok(()));
    assert_eq!(rt; refusal_of(&draft), Some(Refusal::ImpliedEdge(0)));
    Ok(())
}

#[test]
fn the_first_implied_edge_is_named(rt: HostRuntime) -> Result<(), Fail> {
    let edges = [(0, 1), (1, 2), (2, 3), (1, 3), (0, 2)];
    let draft = draft_of(9, &[1, 1, 1, 1], &edges)?;
    assert_eq!(rt; refusal_of(&draft), Some(Refusal::ImpliedEdge(3)));
    Ok(())
}

#[test]
fn refusals_have_numbers(rt: HostRuntime) {
    assert_eq!(rt; Refusal::OutOfRange.number(), 5);
    assert_eq!(rt; Refusal::TooManySteps.number(), 6);
    assert_eq!(rt; Refusal::NotRising.number(), 7);
    assert_eq!(rt; Refusal::EdgeTwice.number(), 8);
    assert_eq!(rt; Refusal::Incomplete.number(), 9);
    assert_eq!(rt; Refusal::Incomplete.place(), None);
    assert_eq!(rt; Refusal::ImpliedEdge(4).number(), 10);
    assert_eq!(rt; Refusal::ImpliedEdge(4).place(), Some(4));
}

#[test]
fn unfinished_drafts_are_refused(rt: HostRuntime) -> Result<(), Fail> {
    let mut draft = Draft::new();
    assert_eq!(rt; refusal_of(&draft), Some(Refusal::Incomplete));
    draft.add_step(3)?;
    assert_eq!(rt; refusal_of(&draft), Some(Refusal::Incomplete));
    draft.set_deadline(3)?;
    assert_eq!(rt; refusal_of(&draft), None);
    let mut no_steps = Draft::new();
    no_steps.set_deadline(3)?;
    assert_eq!(rt; refusal_of(&no_steps), Some(Refusal::Incomplete));
    Ok(())
}

#[test]
fn refused_calls_change_nothing(rt: HostRuntime) -> Result<(), Fail> {
    let mut draft = draft_of(9, &[4, 5], &[(0, 1)])?;
    assert!(rt; draft.set_deadline(0).is_err());
    assert!(rt; draft.add_step(0).is_err());
    assert!(rt; draft.add_edge(0, 1).is_err());
    assert!(rt; draft.add_edge(1, 2).is_err());
    let plan = draft.finish()?;
    assert_eq!(rt; plan.deadline(), 9);
    assert_eq!(rt; plan.count(), 2);
    assert_eq!(rt; plan.volume(), 9);
    assert_eq!(rt; plan.length(), 9);
    Ok(())
}

#[test]
fn sixty_four_steps(rt: HostRuntime) -> Result<(), Fail> {
    let mut chain = draft_of(20_000, &[20_000; 64], &[])?;
    assert_eq!(rt; chain.add_step(1), Err(Refusal::TooManySteps));
    assert_eq!(rt; chain.add_step(0), Err(Refusal::TooManySteps));
    assert_eq!(rt; chain.finish()?.length(), 20_000);
    for step in 0..63 {
        chain.add_edge(step, step + 1)?;
    }
    let plan = chain.finish()?;
    assert_eq!(rt; plan.length(), 1_280_000);
    assert_eq!(rt; plan.volume(), 1_280_000);
    assert_eq!(rt; plan.predecessors(63), Some(StepSet::from([62])));
    let mut halves = draft_of(20_000, &[2; 64], &[])?;
    for from in 0..32 {
        for to in 32..64 {
            halves.add_edge(from, to)?;
        }
    }
    let halves = halves.finish()?;
    assert_eq!(rt; halves.length(), 4);
    assert_eq!(rt; halves.walk(&PathCount)[63], 32);
    Ok(())
}
