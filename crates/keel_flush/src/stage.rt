// Where a flush stands.
ghost use Rattle.std.specs.Prelude.{◌≡◌, ◌∷◌, List};
ghost use Rattle.keel_draft.specs.Drafts.{Draft};
ghost use Rattle.keel_flush.specs.Plans.{appends, draws, is_last, reason_of};
ghost use Rattle.keel_flush.specs.Courses.{act_at, later_at};

use keel_base::Reason;

/// The call that a flush makes next. Pieces are counted from 0.
#[derive(Clone, Copy, Debug, PartialEq, Eq)]
pub enum Stage {
    MakeTable,
    AddPiece { piece: usize },
    SyncTable,
    SyncName,
    AppendEdit,
    SyncManifest,
}

impl Stage {
    /// What its failure counts as.
    pub(crate) fn reason(self) -> Reason
        ensures { (draft : Draft) → result ≡ reason_of (act_at self draft) }
    {
        match self {
            Stage::MakeTable => Reason::Flush,
            Stage::AddPiece { .. } => Reason::Flush,
            Stage::SyncTable => Reason::Flush,
            Stage::SyncName => Reason::Flush,
            Stage::AppendEdit => Reason::Manifest,
            Stage::SyncManifest => Reason::Manifest,
        }
    }

    /// Whether it draws a file's number.
    pub(crate) fn draws(self) -> bool
        ensures { (draft : Draft) → result ≡ draws (act_at self draft) }
    {
        match self {
            Stage::MakeTable => true,
            Stage::AddPiece { .. } => false,
            Stage::SyncTable => false,
            Stage::SyncName => false,
            Stage::AppendEdit => false,
            Stage::SyncManifest => false,
        }
    }

    /// Whether it appends the edit.
    pub(crate) fn appends(self) -> bool
        ensures { (draft : Draft) → result ≡ appends (act_at self draft) }
    {
        match self {
            Stage::MakeTable => false,
            Stage::AddPiece { .. } => false,
            Stage::SyncTable => false,
            Stage::SyncName => false,
            Stage::AppendEdit => true,
            Stage::SyncManifest => false,
        }
    }

    /// Whether no call is left behind it.
    pub(crate) fn ends(self) -> bool
        ensures { (draft : Draft) → result ≡ is_last (act_at self draft ∷ later_at self draft) }
    {
        match self {
            Stage::MakeTable => false,
            Stage::AddPiece { .. } => false,
            Stage::SyncTable => false,
            Stage::SyncName => false,
            Stage::AppendEdit => false,
            Stage::SyncManifest => true,
        }
    }
}
