// Sets at their edges.
use crate::StepSet;

#[test]
fn no_steps(rt: HostRuntime) {
    let none = StepSet::new();
    assert!(rt; none.is_empty());
    assert_eq!(rt; none.len(), 0);
    assert_eq!(rt; none.first(), None);
    assert!(rt; !none.contains(0));
    assert!(rt; !none.contains(63));
    assert!(rt; !none.contains(255));
}

#[test]
fn first_and_last_step(rt: HostRuntime) {
    let mut set = StepSet::new();
    set.insert(64);
    set.insert(255);
    assert!(rt; set.is_empty());
    set.insert(63);
    set.insert(0);
    set.insert(0);
    assert_eq!(rt; set.len(), 2);
    assert_eq!(rt; set.first(), Some(0));
    assert!(rt; set.contains(63));
    assert!(rt; !set.contains(62));
    assert!(rt; !set.contains(64));
    assert!(rt; !set.contains(255));
    set.remove(0);
    set.remove(1);
    set.remove(64);
    set.remove(255);
    assert_eq!(rt; set.first(), Some(63));
    set.remove(63);
    assert!(rt; set.is_empty());
}

#[test]
fn all_steps(rt: HostRuntime) {
    let mut even = StepSet::new();
    let mut odd = StepSet::new();
    for half in 0..32 {
        even.insert(2 * half);
        odd.insert(2 * half + 1);
    }
    assert_eq!(rt; odd.first(), Some(1));
    let mut all = even.union(odd);
    assert!(rt; all == odd.union(even));
    assert_eq!(rt; all.len(), 64);
    all.insert(64);
    assert_eq!(rt; all.len(), 64);
    all.remove(0);
    assert_eq!(rt; all.first(), Some(1));
}
