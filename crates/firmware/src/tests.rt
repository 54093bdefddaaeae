// The texts of answers, byte by byte.
use crate::{TEXT_SIZE, Text, lay_out};
use certificate::Certificate;
use planfile::{Cause, Fault};
use std::process::Abort;

// The text is the one that is wanted, and zeros follow.
fn reads(rt: &impl Abort, text: &Text, wanted: &[u8]) {
    assert_eq!(rt; text.filled(), wanted);
    assert_eq!(rt; text.bytes().len(), TEXT_SIZE);
    for (place, byte) in text.bytes().iter().enumerate() {
        assert_eq!(rt; *byte, wanted.get(place).copied().unwrap_or(0));
    }
}

#[test]
fn a_certified_plan(rt: HostRuntime) {
    let certificate = Certificate {
        volume: 13,
        length: 7,
        deadline: 10,
        least: 13,
        certified: true,
    };
    let text = lay_out(Ok(certificate));
    reads(
        &rt,
        &text,
        b"volume 13\nlength 7\ndeadline 10\nleast 13\ncertified\n",
    );
}

#[test]
fn smallest_numbers(rt: HostRuntime) {
    let certificate = Certificate {
        volume: 0,
        length: 0,
        deadline: 0,
        least: 0,
        certified: false,
    };
    let text = lay_out(Ok(certificate));
    reads(
        &rt,
        &text,
        b"volume 0\nlength 0\ndeadline 0\nleast 0\nrefused 11\n",
    );
}

#[test]
fn largest_numbers(rt: HostRuntime) {
    let certificate = Certificate {
        volume: u32::MAX,
        length: u32::MAX - 1,
        deadline: u16::MAX,
        least: u64::MAX,
        certified: false,
    };
    let text = lay_out(Ok(certificate));
    reads(
        &rt,
        &text,
        b"volume 4294967295\nlength 4294967294\ndeadline 65535\nleast 18446744073709551615\nrefused 11\n",
    );
}

#[test]
fn zeros_within_and_at_the_end_of_a_number(rt: HostRuntime) {
    let certificate = Certificate {
        volume: 10,
        length: 100,
        deadline: 9,
        least: 1_000_000_000_000_000_000,
        certified: true,
    };
    let text = lay_out(Ok(certificate));
    reads(
        &rt,
        &text,
        b"volume 10\nlength 100\ndeadline 9\nleast 1000000000000000000\ncertified\n",
    );
}

fn fault(rt: &impl Abort, cause: Cause, place: usize, wanted: &[u8]) {
    reads(rt, &lay_out(Err(Fault { cause, place })), wanted);
}

#[test]
fn causes(rt: HostRuntime) {
    fault(&rt, Cause::CutShort, 0, b"refused 1 at 0\n");
    fault(&rt, Cause::UnknownKind, 1, b"refused 2 at 1\n");
    fault(&rt, Cause::BodyLength, 9, b"refused 3 at 9\n");
    fault(&rt, Cause::OutOfOrder, 10, b"refused 4 at 10\n");
    fault(&rt, Cause::OutOfRange, 11, b"refused 5 at 11\n");
    fault(&rt, Cause::NoRoom, 99, b"refused 6 at 99\n");
    fault(&rt, Cause::NotRising, 100, b"refused 7 at 100\n");
    fault(&rt, Cause::EdgeTwice, 101, b"refused 8 at 101\n");
    fault(&rt, Cause::Incomplete, 65_536, b"refused 9 at 65536\n");
    fault(
        &rt,
        Cause::ImpliedEdge,
        usize::MAX,
        b"refused 10 at 18446744073709551615\n",
    );
}
