//! How bad a failure in the background is.
//!
//! - `grade` is the table of grades (`specs/Grades`): one for each reason, each fault and each of the two ways to
//!   take a doubtful failure. It is this store's own table, after those of RocksDB's error handler.
//! - `severity` gives the place of a grade in their rising order, by which grades are compared.
//!
//! It stands on `keel_base` alone.
#![tactic(auto)]

ghost use Rattle.std.specs.Prelude.{◌≡◌, Bool, if◌then◌else◌};
ghost use Rattle.keel_grade.specs.Grades.{grade_of, severity_of};

use keel_base::{Fault, Grade, Reason};

/// How bad it is that something failed for this reason with this fault. `paranoid` takes doubtful failures as
/// severe. A failure of the log or the manifest is never below `Hard`: acknowledged writes stand behind it.
pub fn grade(reason: Reason, fault: Fault, paranoid: bool) -> Grade
    ensures { result ≡ grade_of reason fault paranoid }
{
    match reason {
        Reason::Flush => flush_grade(fault, paranoid),
        Reason::Compaction => compaction_grade(fault, paranoid),
        Reason::Wal => wal_grade(fault, paranoid),
        Reason::Manifest => manifest_grade(fault),
    }
}

/// The place of a grade in their order: 0 for `NoError` to 4 for `Unrecoverable`.
pub fn severity(grade: Grade) -> u8
    ensures { result ≡ severity_of grade }
{
    match grade {
        Grade::NoError => 0,
        Grade::Soft => 1,
        Grade::Hard => 2,
        Grade::Fatal => 3,
        Grade::Unrecoverable => 4,
    }
}

fn flush_grade(fault: Fault, paranoid: bool) -> Grade
    ensures { result ≡ grade_of Reason.Flush fault paranoid }
{
    match fault {
        Fault::DataLoss => Grade::Unrecoverable,
        Fault::Retryable => Grade::Hard,
        Fault::NoSpace => only_if(paranoid, Grade::Hard),
        Fault::SpaceLimit => only_if(paranoid, Grade::Hard),
        Fault::Fenced => only_if(paranoid, Grade::Fatal),
        Fault::Corrupt => only_if(paranoid, Grade::Unrecoverable),
        Fault::Plain => only_if(paranoid, Grade::Fatal),
    }
}

fn compaction_grade(fault: Fault, paranoid: bool) -> Grade
    ensures { result ≡ grade_of Reason.Compaction fault paranoid }
{
    match fault {
        Fault::DataLoss => Grade::Unrecoverable,
        Fault::Retryable => Grade::NoError,
        Fault::NoSpace => only_if(paranoid, Grade::Soft),
        Fault::SpaceLimit => only_if(paranoid, Grade::Hard),
        Fault::Fenced => only_if(paranoid, Grade::Fatal),
        Fault::Corrupt => only_if(paranoid, Grade::Unrecoverable),
        Fault::Plain => only_if(paranoid, Grade::Fatal),
    }
}

fn wal_grade(fault: Fault, paranoid: bool) -> Grade
    ensures { result ≡ grade_of Reason.Wal fault paranoid }
{
    match fault {
        Fault::DataLoss => Grade::Unrecoverable,
        Fault::Retryable => Grade::Hard,
        Fault::NoSpace => Grade::Hard,
        Fault::SpaceLimit => one_of(paranoid, Grade::Fatal, Grade::Hard),
        Fault::Fenced => Grade::Fatal,
        Fault::Corrupt => one_of(paranoid, Grade::Unrecoverable, Grade::Fatal),
        Fault::Plain => one_of(paranoid, Grade::Fatal, Grade::Hard),
    }
}

fn manifest_grade(fault: Fault) -> Grade
    ensures { (paranoid : Bool) → result ≡ grade_of Reason.Manifest fault paranoid }
{
    match fault {
        Fault::DataLoss => Grade::Unrecoverable,
        Fault::Retryable => Grade::Hard,
        Fault::NoSpace => Grade::Hard,
        Fault::SpaceLimit => Grade::Fatal,
        Fault::Fenced => Grade::Fatal,
        Fault::Corrupt => Grade::Fatal,
        Fault::Plain => Grade::Fatal,
    }
}

// The grade where doubtful failures are severe, and else none.
fn only_if(paranoid: bool, severe: Grade) -> Grade
    ensures { result ≡ (if paranoid then severe else Grade.NoError) }
{
    one_of(paranoid, severe, Grade::NoError)
}

fn one_of(paranoid: bool, severe: Grade, mild: Grade) -> Grade
    ensures { result ≡ (if paranoid then severe else mild) }
{
    if paranoid { severe } else { mild }
}

#[cfg(test)]
mod tests;
