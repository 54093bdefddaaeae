// Lists that are empty, partly filled and full.
use crate::{FixedList, Full};

#[test]
fn values_then_blanks(rt: HostRuntime) {
    let mut list = FixedList::<u8, 4>::new();
    assert!(rt; list.is_empty());
    assert_eq!(rt; *list.places(), [0; 4]);
    assert_eq!(rt; list.push(7), Ok(()));
    assert_eq!(rt; list.push(8), Ok(()));
    assert_eq!(rt; list.as_slice(), [7, 8].as_slice());
    assert_eq!(rt; *list.places(), [7, 8, 0, 0]);
    assert_eq!(rt; list.len(), 2);
    assert!(rt; !list.is_empty());
}

#[test]
fn a_full_list_refuses(rt: HostRuntime) {
    let mut list = FixedList::<u8, 2>::new();
    assert_eq!(rt; list.push(7), Ok(()));
    assert_eq!(rt; list.push(8), Ok(()));
    assert_eq!(rt; list.push(9), Err(Full));
    assert_eq!(rt; *list.places(), [7, 8]);
    let mut none = FixedList::<u8, 0>::new();
    assert_eq!(rt; none.push(7), Err(Full));
}

#[test]
fn only_places_with_a_value_are_set(rt: HostRuntime) {
    let mut list = FixedList::<u8, 4>::new();
    assert_eq!(rt; list.push(7), Ok(()));
    let before = list;
    list.set(0, 9);
    list.set(1, 9);
    list.set(4, 9);
    assert_eq!(rt; *list.places(), [9, 0, 0, 0]);
    assert_eq!(rt; *before.places(), [7, 0, 0, 0]);
}
