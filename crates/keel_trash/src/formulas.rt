// When files are deleted at once, and when deletion waits.
ghost use Rattle.std.specs.Prelude.{◌≡◌, ◌+◌, ◌*◌, ◌^◌, ◌<◌, nat_lt};
ghost use Rattle.keel_trash.specs.Formulas.{is_immediate, next_tick as next_tick_of};

const WORD: u128 = 1 << 64;

// A product of 160 bits: its upper part and its lower 64 bits.
fn product(value: u128, factor: u32) -> (u128, u128)
    ensures value { result.0 * 2 ^ 64 + result.1 ≡ value * factor }
    ensures low { result.1 < 2 ^ 64 }
{
    let low = value % WORD * factor as u128;
    let high = value / WORD * factor as u128;
    (high + low / WORD, low % WORD)
}

// Whether a table is removed at once. The products may be too large for 128 bits.
pub fn immediate(rate: u64, ratio: u32, total: u128, trash: u128) -> bool
    ensures { result ≡ is_immediate rate ratio total trash }
{
    rate == 0 || is_less(product(total, ratio), product(trash, 1000))
}

fn is_less(a: (u128, u128), b: (u128, u128)) -> bool
    requires low { a.1 < 2 ^ 64 }
    requires low_too { b.1 < 2 ^ 64 }
    ensures { result ≡ nat_lt (a.0 * 2 ^ 64 + a.1) (b.0 * 2 ^ 64 + b.1) }
{
    a.0 < b.0 || a.0 == b.0 && a.1 < b.1
}

// The tick from which on the next trash file may be cut or removed, and 0 where nothing waits.
pub fn next_tick(rate: u64, start: Option<u64>, taken: u128) -> u64
    ensures { result ≡ next_tick_of rate start taken }
{
    let Some(start) = start else {
        return 0;
    };
    if rate == 0 {
        return 0;
    }
    // What is cut off here is past the last tick.
    let ticks = taken.saturating_mul(1000).div_ceil(rate as u128);
    ticks.saturating_add(start as u128).min(u64::MAX as u128) as u64
}
