// The labels of steps.
use crate::label;
use crate::test_files::Part::*;
use crate::test_files::{HIDE, Part, file_of};
use std::test::Fail;

// The label of a step and the byte at which it begins, where the file has them.
#[derive(Clone, Copy)]
struct Case<'a> {
    parts: &'a [Part<'a>],
    step: u8,
    found: Option<(usize, &'a [u8])>,
}

#[test]
fn labels_of_hide(rt: HostRuntime) {
    let labels: [(u8, Option<(usize, &[u8])>); 8] = [
        (0, Some((12, b"scan"))),
        (1, Some((22, b"flaws-left"))),
        (2, Some((38, b"flaws-mid"))),
        (3, Some((53, b"flaws-right"))),
        (4, Some((70, b"nesting"))),
        (5, Some((83, b"knife-path"))),
        (6, None),
        (255, None),
    ];
    for (step, found) in labels {
        assert_eq!(rt; label(HIDE, step), found);
    }
}

#[test]
fn labels_found_and_absent(rt: HostRuntime) -> Result<(), Fail> {
    let cases = [
        // an empty label
        Case {
            parts: &[Deadline(10), Step(1, b""), Block(1, 10)],
            step: 0,
            found: Some((12, b"")),
        },
        // 16 bytes, behind a step with an empty label
        Case {
            parts: &[
                Deadline(10),
                Steps(1),
                Step(1, b"flaw-finder-0001"),
                Block(1, 10),
            ],
            step: 1,
            found: Some((18, b"flaw-finder-0001")),
        },
        // the same label again
        Case {
            parts: &[Deadline(10), Step(1, b"~"), Step(1, b"~"), Block(1, 10)],
            step: 1,
            found: Some((19, b"~")),
        },
        // the last of 64 steps
        Case {
            parts: &[
                Deadline(10),
                Steps(63),
                Step(1, b"last"),
                Edge(0, 63),
                Blocks(64),
            ],
            step: 63,
            found: Some((390, b"last")),
        },
        // no such step
        Case {
            parts: &[Deadline(10), Steps(64), Block(1, 10)],
            step: 64,
            found: None,
        },
        Case {
            parts: &[Deadline(10), Steps(64), Block(1, 10)],
            step: 255,
            found: None,
        },
        // refused files
        Case {
            parts: &[Deadline(10), Step(1, b"scan")],
            step: 0,
            found: None,
        },
        Case {
            parts: &[Deadline(10), Step(1, b"scan"), Block(1, 10), Bytes(&[0])],
            step: 0,
            found: None,
        },
        Case {
            parts: &[Deadline(10), Step(1, b"scan"), Blocks(65)],
            step: 0,
            found: None,
        },
        Case {
            parts: &[Bytes(b"")],
            step: 0,
            found: None,
        },
    ];
    for case in cases {
        let file = file_of(rt.alloc(), case.parts)?;
        assert_eq!(rt; label(&file, case.step), case.found);
    }
    Ok(())
}
