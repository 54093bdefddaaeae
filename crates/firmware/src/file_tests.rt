// The cores that a file grants, and the certificates of files.
use crate::{FileCores, certify_file, vaxerku_certify};
use certificate::Certificate;
use cores::{Block, Supply};
use planfile::{Layers, Window};
use std::process::Abort;
use std::test::Fail;

// Six steps of a hide on two cores for ten ticks, certified.
const HIDE: &[u8] = b"\
    \x02\x00\x01\x00\x0a\x00\
    \x06\x00\x02\x00\x01\x00scan\
    \x0c\x00\x02\x00\x03\x00flaws-left\
    \x0b\x00\x02\x00\x02\x00flaws-mid\
    \x0d\x00\x02\x00\x04\x00flaws-right\
    \x09\x00\x02\x00\x02\x00nesting\
    \x0c\x00\x02\x00\x01\x00knife-path\
    \x02\x00\x03\x00\x00\x01\
    \x02\x00\x03\x00\x00\x02\
    \x02\x00\x03\x00\x00\x03\
    \x02\x00\x03\x00\x01\x04\
    \x02\x00\x03\x00\x02\x04\
    \x02\x00\x03\x00\x03\x05\
    \x02\x00\x03\x00\x04\x05\
    \x03\x00\x04\x00\x02\x0a\x00";

// Accepted, but its least yield is one below its volume.
const UNCERTIFIED: &[u8] = b"\
    \x02\x00\x01\x00\x0f\x00\
    \x02\x00\x02\x00\x05\x00\
    \x02\x00\x02\x00\x05\x00\
    \x02\x00\x02\x00\x05\x00\
    \x02\x00\x02\x00\x05\x00\
    \x02\x00\x02\x00\x05\x00\
    \x02\x00\x02\x00\x01\x00\
    \x03\x00\x04\x00\x02\x0a\x00\
    \x03\x00\x04\x00\x03\x05\x00";

// Certified with either layer left out, and with the layers the other way round.
const HELD_BACK_AND_LATE: &[u8] = b"\
    \x02\x00\x01\x00\x08\x00\
    \x02\x00\x02\x00\x02\x00\
    \x02\x00\x02\x00\x03\x00\
    \x02\x00\x02\x00\x01\x00\
    \x02\x00\x03\x00\x00\x01\
    \x03\x00\x04\x00\x01\x02\x00\
    \x03\x00\x04\x00\x03\x04\x00\
    \x03\x00\x04\x00\x02\x06\x00\
    \x05\x00\x05\x00\x03\x03\x00\x05\x00\
    \x02\x00\x06\x00\x06\x00";

const LADDER: [Block; 3] = [
    Block { cores: 1, ticks: 2 },
    Block { cores: 5, ticks: 2 },
    Block { cores: 3, ticks: 2 },
];

// The widths at the first six ticks, and at the largest.
fn widths(rt: &impl Abort, layers: Layers, wanted: [u8; 7]) {
    let cores = FileCores::new(&LADDER, layers);
    let ticks = [0, 1, 2, 3, 4, 5, u32::MAX];
    for (tick, width) in ticks.iter().zip(&wanted) {
        assert_eq!(rt; cores.width_at(*tick), *width);
    }
}

#[test]
fn layers_of_a_file(rt: HostRuntime) {
    let window = Some(Window {
        cores: 2,
        from: 1,
        until: 3,
    });
    let none = Layers {
        hold_back: None,
        late: None,
    };
    widths(&rt, none, [1, 1, 5, 5, 3, 3, 0]);
    widths(
        &rt,
        Layers {
            hold_back: window,
            late: None,
        },
        [1, 0, 3, 5, 3, 3, 0],
    );
    widths(
        &rt,
        Layers {
            hold_back: None,
            late: Some(1),
        },
        [1, 5, 5, 3, 3, 0, 0],
    );
    // the window counts the job's ticks: the other way round tick 0 would lose cores
    widths(
        &rt,
        Layers {
            hold_back: window,
            late: Some(1),
        },
        [1, 3, 3, 3, 3, 0, 0],
    );
}

#[test]
fn certificate_of_a_file(rt: HostRuntime) -> Result<(), Fail> {
    let Ok(certificate) = certify_file(HIDE) else {
        assert!(rt; false);
        return Ok(());
    };
    let wanted = Certificate {
        volume: 13,
        length: 7,
        deadline: 10,
        least: 13,
        certified: true,
    };
    assert_eq!(rt; certificate, wanted);
    Ok(())
}

#[test]
fn numbers_for_c(rt: HostRuntime) {
    assert_eq!(rt; vaxerku_certify(HIDE), 0);
    assert_eq!(rt; vaxerku_certify(UNCERTIFIED), 11);
    assert_eq!(rt; vaxerku_certify(HELD_BACK_AND_LATE), 11);
    assert_eq!(rt; vaxerku_certify(&[]), 9);
    assert_eq!(rt; vaxerku_certify(&[2, 0, 1]), 1);
    assert_eq!(rt; vaxerku_certify(&[0, 0, 7, 0]), 2);
    assert_eq!(rt; vaxerku_certify(&[0, 0, 1, 0]), 3);
    assert_eq!(rt; vaxerku_certify(&[2, 0, 1, 0, 9, 0, 2, 0, 1, 0, 9, 0]), 4);
    assert_eq!(rt; vaxerku_certify(&[2, 0, 1, 0, 0, 0]), 5);
    assert_eq!(rt; vaxerku_certify(&[2, 0, 3, 0, 0, 1]), 7);
}
