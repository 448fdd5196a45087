ghost use Rattle.std.specs.Prelude.{◌≡◌, ◌+◌, ◌<◌, ◌≤◌, [], length, All};
ghost use Rattle.keel_region.specs.Order.{AreInOrder};
ghost use Rattle.keel_region.specs.Spans.{AreHeld};

use crate::{Index, IndexEntry, Node, Pool, Region, Span};
use keel_base::{Kind, OutOfMemory};
use std::alloc::Global;
use std::test::Fail;

#[test]
fn bytes_stay_where_they_were_placed(rt: HostRuntime) -> Result<(), Fail> {
    let mut region = Region::new(rt.alloc());
    region.reserve(4).ok().ok_or("memory")?;
    let abc = region.place(b"abc");
    assert_eq!(rt;
        abc,
        Span {
            start: 0,
            length: 3
        }
    );
    let d = region.place(b"d");
    assert_eq!(rt;
        d,
        Span {
            start: 3,
            length: 1
        }
    );
    assert_eq!(rt; region.bytes(abc), b"abc".as_slice());
    assert_eq!(rt; region.bytes(d), b"d".as_slice());
    assert_eq!(rt; region.len(), 4);
    region.reset();
    assert_eq!(rt; region.len(), 0);
    Ok(())
}

#[test]
fn entries_go_by_key_and_the_newest_first(rt: HostRuntime) -> Result<(), Fail> {
    let mut region = Region::new(rt.alloc());
    region.reserve(2).ok().ok_or("memory")?;
    let a = region.place(b"a");
    let b = region.place(b"b");
    let mut index = Index::new(rt.alloc());
    index.reserve(1).ok().ok_or("memory")?;
    let newest = IndexEntry {
        seq: 2,
        kind: Kind::Del,
        key: a,
        value: b,
    };
    index.insert(&region, newest);
    assert_eq!(rt; index.len(), 1);
    assert_eq!(rt; index.first(), Some(newest));
    assert_eq!(rt; index.find(&region, b"a"), Some(newest));
    assert_eq!(rt; index.find(&region, b"b"), None);
    assert_eq!(rt; index.after(&region, &newest), None);
    Ok(())
}

#[test]
fn a_slot_is_handed_out_once(rt: HostRuntime) -> Result<(), Fail> {
    let span = Span {
        start: 0,
        length: 0,
    };
    let entry = IndexEntry {
        seq: 1,
        kind: Kind::Put,
        key: span,
        value: span,
    };
    let node = Node {
        entry,
        left: None,
        right: None,
        height: 1,
    };
    let mut pool = Pool::new(rt.alloc());
    pool.reserve(2).ok().ok_or("memory")?;
    let slot = pool.take(node);
    let other = pool.take(Node { height: 2, ..node });
    assert_ne!(rt; slot, other);
    assert_eq!(rt; pool.taken(), 2);
    assert_eq!(rt; pool.get(slot), Some(node));
    pool.put(slot, Node { height: 3, ..node });
    assert_eq!(rt; pool.give_back(slot).height, 3);
    assert_eq!(rt; pool.get(slot), None);
    Ok(())
}

/// Puts in a change of the key that is the one byte there.
fn plant(index: &mut Index, region: &Region, start: usize, seq: u64)
    requires room { 0 < index.old.spare }
    requires held { AreHeld region.now.bytes index.old.entries }
    requires order { AreInOrder region.now.bytes index.old.entries }
    requires older { All (λ other. other.seq < seq) index.old.entries }
    requires within { start < length region.now.bytes }
    ensures held { AreHeld region.now.bytes index.new.entries }
    ensures order { AreInOrder region.now.bytes index.new.entries }
    ensures older { All (λ other. other.seq < seq + 1) index.new.entries }
    ensures spare { index.new.spare + 1 ≡ index.old.spare }
{
    let span = Span { start, length: 1 };
    let entry = IndexEntry {
        seq,
        kind: Kind::Put,
        key: span,
        value: span,
    };
    index.insert(region, entry);
}

/// Plants the keys of seven bytes in rising or falling order.
fn plant_seven(index: &mut Index, region: &Region, falling: bool)
    requires room { 7 ≤ index.old.spare }
    requires empty { index.old.entries ≡ [] }
    requires seven { length region.now.bytes ≡ 7 }
    ensures held { AreHeld region.now.bytes index.new.entries }
    ensures order { AreInOrder region.now.bytes index.new.entries }
{
    plant(index, region, place_of(0, falling), 0);
    plant(index, region, place_of(1, falling), 1);
    plant(index, region, place_of(2, falling), 2);
    plant(index, region, place_of(3, falling), 3);
    plant(index, region, place_of(4, falling), 4);
    plant(index, region, place_of(5, falling), 5);
    plant(index, region, place_of(6, falling), 6);
}

/// The place of the nth key to be planted.
fn place_of(n: usize, falling: bool) -> usize
    requires { n < 7 }
    ensures { result < 7 }
{
    if falling { 6 - n } else { n }
}

/// The height of the tree of seven keys, its root's key, and the length of the way to `a`.
fn measured(alloc: Global, falling: bool) -> Result<(u8, Option<Span>, usize), OutOfMemory> {
    let mut region = Region::new(alloc);
    region.reserve(7)?;
    region.place(b"abcdefg");
    let mut index = Index::new(alloc);
    index.reserve(7)?;
    plant_seven(&mut index, &region, falling);
    let key = match index.root() {
        None => None,
        Some(slot) => match index.node(slot) {
            None => None,
            Some(node) => Some(node.entry.key),
        },
    };
    let way = index.path(&region, b"a", 0);
    Ok((index.height(), key, way.slots().len()))
}

#[test]
fn seven_keys_make_a_full_tree(rt: HostRuntime) -> Result<(), Fail> {
    let d = Span {
        start: 3,
        length: 1,
    };
    let rising = measured(rt.alloc(), false).ok().ok_or("memory")?;
    assert_eq!(rt; rising, (3, Some(d), 3));
    let falling = measured(rt.alloc(), true).ok().ok_or("memory")?;
    assert_eq!(rt; falling, (3, Some(d), 3));
    Ok(())
}
