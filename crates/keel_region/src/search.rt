// How an entry stands to a key.
ghost use Rattle.std.specs.Prelude.{◌≡◌};
ghost use Rattle.keel_region.specs.Order.{entry_before};
ghost use Rattle.keel_region.specs.Spans.{IsWithin};

use crate::region::Region;
use crate::span::IndexEntry;
use std::cmp::Ordering;

/// Whether the entry comes before that key at that sequence, or with none before every entry of the key.
pub(crate) fn is_before(region: &Region, entry: &IndexEntry, key: &[u8], seq: Option<u64>) -> bool
    requires { IsWithin region.now.bytes entry.now.key }
    ensures { result ≡ entry_before region.now.bytes key.now seq entry.now }
{
    let order = region.bytes(entry.key).cmp(key);
    match seq {
        None => match order {
            Ordering::Less => true,
            Ordering::Equal => false,
            Ordering::Greater => false,
        },
        Some(seq) => match order {
            Ordering::Less => true,
            Ordering::Equal => seq < entry.seq,
            Ordering::Greater => false,
        },
    }
}
