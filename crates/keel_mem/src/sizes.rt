// The bytes that ops need in a region.
ghost use Rattle.std.specs.Prelude.{◌≡◌, ◌≤◌, length};
ghost use Rattle.std.specs.List.{AllByRecursion};
ghost use Rattle.keel_base.specs.Weight.{IsWithinLimits};
ghost use Rattle.keel_mem.specs.Needs.{op_bytes, bytes_of};

use keel_base::{MOST_OPS, Op};

fn op_size(op: &Op) -> usize
    requires { IsWithinLimits op.now }
    ensures size { result ≡ op_bytes op.now }
    ensures bound { result ≤ 66560 }
{
    match op {
        Op::Put { key, value } => key.len() + value.len(),
        Op::Del { key } => key.len(),
    }
}

/// The bytes of all keys and values.
pub(crate) fn ops_size(ops: &[Op]) -> usize
    requires limits { AllByRecursion IsWithinLimits ops.now }
    requires few { length ops.now ≤ MOST_OPS }
    ensures { result ≡ bytes_of ops.now }
{
    let mut total = 0;
    for op in ops {
        total += op_size(op);
    }
    total
}
