// Changes of the map, and batches of them.
ghost use Rattle.std.specs.Prelude.{◌≡◌, ◌≤◌, length};
ghost use Rattle.std.specs.List.{AllByRecursion};
ghost use Rattle.keel_base.specs.declared.limits.TheConstants.{MOST_OPS};
ghost use Rattle.keel_base.specs.Weight.{weight as weight_of_op, weight_of, IsWithinLimits};

use crate::{Bytes, Sequence};

/// A change of one key.
#[derive(Debug, Drop)]
pub enum Op {
    Put { key: Bytes, value: Bytes },
    Del { key: Bytes },
}

/// Changes in their order.
pub type Ops = Sequence<Op>;

/// Batches in their order.
pub type Batches = Sequence<Batch>;

/// Changes that are made together. With `sync` they are acknowledged only once they are firm.
#[derive(Debug, Drop)]
pub struct Batch {
    pub ops: Ops,
    pub sync: bool,
}

/// What an op counts for in a segment or a group: the bytes of its key and value, and 16.
pub fn weight(op: &Op) -> u64
    requires { IsWithinLimits op.now }
    ensures { result ≡ weight_of_op op.now }
{
    match op {
        Op::Put { key, value } => 16 + key.len() as u64 + value.len() as u64,
        Op::Del { key } => 16 + key.len() as u64,
    }
}

/// What some ops count for together.
pub fn ops_weight(ops: &[Op]) -> u64
    requires within { AllByRecursion IsWithinLimits ops.now }
    requires few { length ops.now ≤ MOST_OPS }
    ensures { result ≡ weight_of ops.now }
{
    let mut total = 0;
    for op in ops {
        total += weight(op);
    }
    total
}
