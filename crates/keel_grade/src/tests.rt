use crate::{grade, severity};
use keel_base::{Fault, Reason};
use std::test::Fail;

/// By fault, then by reason (flush, compaction, log, manifest): the grade with paranoid checks and without them.
const TABLE: [(Fault, [(u8, u8); 4]); 7] = [
    (Fault::DataLoss, [(4, 4), (4, 4), (4, 4), (4, 4)]),
    (Fault::Retryable, [(2, 2), (0, 0), (2, 2), (2, 2)]),
    (Fault::NoSpace, [(2, 0), (1, 0), (2, 2), (2, 2)]),
    (Fault::SpaceLimit, [(2, 0), (2, 0), (3, 2), (3, 3)]),
    (Fault::Fenced, [(3, 0), (3, 0), (3, 3), (3, 3)]),
    (Fault::Corrupt, [(4, 0), (4, 0), (4, 3), (3, 3)]),
    (Fault::Plain, [(3, 0), (3, 0), (3, 2), (3, 3)]),
];

#[test]
fn every_failure_has_its_grade(rt: HostRuntime) -> Result<(), Fail> {
    let reasons = [
        Reason::Flush,
        Reason::Compaction,
        Reason::Wal,
        Reason::Manifest,
    ];
    for (fault, row) in TABLE {
        for (reason, (severe, mild)) in reasons.into_iter().zip(row) {
            assert_eq!(rt; severity(grade(reason, fault, true)), severe);
            assert_eq!(rt; severity(grade(reason, fault, false)), mild);
        }
    }
    Ok(())
}
