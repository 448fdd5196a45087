// A list of a merge.
ghost use Rattle.std.specs.Prelude.{◌≡◌, ◌<◌, ◌∷◌, [], length, option_copied, true};
ghost use Rattle.keel_merge.specs.Taking.{first_row};

use keel_base::{Row, Rows};
use std::alloc::Global;
use std::marker::Model;

// Rows that wait, and whether more may come behind them.
#[derive(Debug, Drop)]
pub(crate) struct Input {
    // Turned around, so that the first can be taken off the end.
    rows: Vec<Row>,
    more: bool,
}

impl Model for Input {
    ghost use Rattle.std.specs.Prelude.{reverse};
    ghost use Rattle.keel_merge.specs.Feeding.{Waiting};

    ghost Value = { Waiting };

    ghost view = { λ i. record { rows = reverse i.rows.items; more = i.more } };
}

impl Input {
    pub(crate) fn unfed(alloc: Global) -> Input
        ensures { result ≡ record { rows = []; more = true } }
    {
        Input {
            rows: Vec::new(alloc),
            more: true,
        }
    }

    pub(crate) fn new(rows: Rows, more: bool) -> Input
        ensures { result ≡ record { rows = rows; more = more } }
    {
        let mut rows = rows.into_vec();
        rows.as_mut_slice().reverse();
        Input { rows, more }
    }

    pub(crate) fn first(&self) -> Option<&Row>
        ensures { option_copied result ≡ first_row self.now.rows }
    {
        self.rows.as_slice().last()
    }

    pub(crate) fn may_grow(&self) -> bool
        ensures { result ≡ self.now.more }
    {
        self.more
    }

    pub(crate) fn take_first(&mut self) -> Row
        requires { 0 < length self.old.rows }
        ensures rows { self.old.rows ≡ result ∷ self.new.rows }
        ensures more { self.new.more ≡ self.old.more }
    {
        self.rows.take_last()
    }
}
