// How many bytes the store's files may have.
ghost use Rattle.std.specs.Prelude.{◌≡◌};

/// The bytes that the store's files may have together, and those that they have, where they have been counted.
#[derive(Clone, Copy, Debug)]
pub struct Budget {
    pub limit: u64,
    pub counted: Option<u64>,
}

impl Budget {
    ghost use Rattle.keel_dirdisk.specs.Spending.{freeing};

    /// The same limit, with so many bytes fewer where they are counted.
    pub fn freeing(self, freed: u64) -> Budget
        ensures { result ≡ freeing freed self }
    {
        Budget {
            limit: self.limit,
            counted: self.counted.map(|had| had.saturating_sub(freed)),
        }
    }
}
