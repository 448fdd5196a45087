use crate::next_log;
use keel_base::{Entry, FileName};
use std::test::Fail;

/// A listing in which logs of other numbers stand before the one that is asked for, and files of other kinds between.
const LISTING: [Entry; 5] = [
    Entry {
        name: FileName::Log(1_000_000),
        size: 30,
    },
    Entry {
        name: FileName::Log(7),
        size: 0,
    },
    Entry {
        name: FileName::Table(8),
        size: 40,
    },
    Entry {
        name: FileName::Log(999_999),
        size: 20,
    },
    Entry {
        name: FileName::Manifest(5),
        size: 50,
    },
];

#[test]
fn logs_come_in_order_of_their_numbers(rt: HostRuntime) -> Result<(), Fail> {
    let cases = [
        (0, Some((7, 0))),
        (7, Some((7, 0))),
        (8, Some((999_999, 20))),
        (1_000_000, Some((1_000_000, 30))),
        (1_000_001, None),
    ];
    for (least, expected) in cases {
        let found = next_log(&LISTING, least).map(|log| (log.number, log.size));
        assert_eq!(rt; found, expected);
    }
    Ok(())
}
