// Where a job stands.
ghost use Rattle.std.specs.Prelude.{◌≡◌, List};
ghost use Rattle.keel_draft.specs.Drafts.{Draft};
ghost use Rattle.keel_resume.specs.Plans.{draws, reason_of, Rolls};
ghost use Rattle.keel_resume.specs.Courses.{act_at};

use keel_base::Reason;
use keel_manifest::RollCall;

/// The call that a job makes next. Tables are counted from 0 in the order of the memtables, pieces from 0 in a table.
#[derive(Clone, Copy, Debug, PartialEq, Eq)]
pub enum Stage {
    MakeTable { table: usize },
    AddPiece { table: usize, piece: usize },
    SyncTable { table: usize },
    MakeLog,
    SyncLogName,
    Roll(RollCall),
}

impl Stage {
    /// What its failure counts as.
    pub(crate) fn reason(self) -> Reason
        ensures { (drafts : List Draft) → result ≡ reason_of (act_at self drafts) }
    {
        match self {
            Stage::MakeTable { .. } => Reason::Flush,
            Stage::AddPiece { .. } => Reason::Flush,
            Stage::SyncTable { .. } => Reason::Flush,
            Stage::MakeLog => Reason::Wal,
            Stage::SyncLogName => Reason::Wal,
            Stage::Roll(_) => Reason::Manifest,
        }
    }

    /// Whether it draws a file's number.
    pub(crate) fn draws(self) -> bool
        ensures { (drafts : List Draft) → result ≡ draws (act_at self drafts) }
    {
        match self {
            Stage::MakeTable { .. } => true,
            Stage::AddPiece { .. } => false,
            Stage::SyncTable { .. } => false,
            Stage::MakeLog => true,
            Stage::SyncLogName => false,
            Stage::Roll(call) => is_first(call),
        }
    }
}

// Whether the roll makes its manifest with this call.
fn is_first(call: RollCall) -> bool
    ensures { result ≡ draws (Rolls call) }
{
    match call {
        RollCall::MakeManifest => true,
        RollCall::AppendEdit => false,
        RollCall::SyncManifest => false,
        RollCall::MakeTemporary => false,
        RollCall::AppendName => false,
        RollCall::SyncTemporary => false,
        RollCall::Rename => false,
        RollCall::SyncDirectory => false,
    }
}
