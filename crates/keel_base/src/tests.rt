use crate::{
    Bytes, Calls, Failed, FileName, Kind, LONGEST_KEY, LONGEST_VALUE, MemSink, MemSource, Op, Ops,
    OptionName, Options, OutOfMemory, PlainSink, PlainSource, Range, ReservedList, Row, Rows, Sink,
    Source, TakeEnd, give_all, ops_weight, same_name, take_all, weight,
};
use std::alloc::Global;
use std::test::Fail;

fn calls(alloc: Global, number: u64) -> Result<Calls, OutOfMemory> {
    let mut calls = Calls::new(alloc);
    calls.push(number)?;
    Ok(calls)
}

/// Takes all of a source into a sink, which is what the command line does with input and output.
fn passed_on<S: Source, K: Sink>(
    alloc: Global,
    source: &mut S,
    sink: &mut K,
) -> Result<bool, TakeEnd> {
    let input = take_all(alloc, source, 100)?;
    Ok(give_all(sink, input.as_slice()).is_ok())
}

#[test]
fn streams_pass_on_what_they_get(rt: HostRuntime) -> Result<(), Fail> {
    let alloc = rt.alloc();
    let text = Bytes::from_slice(alloc, b"open\nget a\n")
        .ok()
        .ok_or("memory")?;
    let mut source = MemSource::new(text, Calls::new(alloc));
    let mut sink = MemSink::new(alloc, Calls::new(alloc));
    assert!(rt; passed_on(alloc, &mut source, &mut sink) == Ok(true));
    assert_eq!(rt; sink.held(), b"open\nget a\n".as_slice());
    let text = Bytes::from_slice(alloc, b"open\n").ok().ok_or("memory")?;
    assert!(rt; passed_on(alloc, &mut PlainSource::new(text), &mut PlainSink) == Ok(true));
    Ok(())
}

#[test]
fn streams_fail_at_the_calls_that_are_named(rt: HostRuntime) -> Result<(), Fail> {
    let alloc = rt.alloc();
    let text = Bytes::from_slice(alloc, b"open\n").ok().ok_or("memory")?;
    let mut source = MemSource::new(text, calls(alloc, 1).ok().ok_or("memory")?);
    let mut sink = MemSink::new(alloc, calls(alloc, 0).ok().ok_or("memory")?);
    let mut buffer = [0; 2];
    assert_eq!(rt; source.take(&mut buffer), Ok(2));
    assert_eq!(rt; source.take(&mut buffer), Err(Failed));
    assert_eq!(rt; source.take(&mut buffer), Ok(2));
    assert_eq!(rt; buffer.as_slice(), b"en".as_slice());
    assert_eq!(rt; sink.give(b"a"), Err(Failed));
    assert_eq!(rt; sink.give(b"b"), Ok(1));
    assert_eq!(rt; sink.held(), b"b".as_slice());
    Ok(())
}

#[test]
fn lists_names_and_weights(rt: HostRuntime) -> Result<(), Fail> {
    let alloc = rt.alloc();
    let mut key = Bytes::from_slice(alloc, b"ab").ok().ok_or("memory")?;
    key.extend(b"cd").ok().ok_or("memory")?;
    key.truncate(3);
    assert_eq!(rt; key.as_slice(), b"abc".as_slice());
    let value = Bytes::new(alloc);
    assert_eq!(rt; value.len(), 0);
    let mut ops = Ops::new(alloc);
    assert!(rt; ops.is_empty());
    ops.push(Op::Put { key, value }).ok().ok_or("memory")?;
    assert_eq!(rt; ops.len(), 1);
    for op in ops.as_slice() {
        assert_eq!(rt; weighed(op), 19);
    }
    assert_eq!(rt; ops_weight(&[]), 0);
    assert!(rt; same_name(FileName::Log(7), FileName::Log(7)));
    assert!(rt; !same_name(FileName::Table(7), FileName::Trash(7)));
    Ok(())
}

/// The weight of an op whose sizes are within the limits, and 0 of another.
fn weighed(op: &Op) -> u64 {
    match op {
        Op::Put { key, value }
            if key.len() > 0 && key.len() <= LONGEST_KEY && value.len() <= LONGEST_VALUE => weight(
            op,
        ),
        Op::Del { key } if key.len() > 0 && key.len() <= LONGEST_KEY => weight(op),
        _ => 0,
    }
}

#[test]
fn a_list_is_the_vector_that_it_was_made_of(rt: HostRuntime) -> Result<(), Fail> {
    let alloc = rt.alloc();
    let mut rows = Vec::new(alloc);
    rows.push(Row {
        seq: 2,
        kind: Kind::Del,
        key: Bytes::from_slice(alloc, b"a").ok().ok_or("memory")?,
        value: Bytes::new(alloc),
    })?;
    let rows = Rows::from_vec(rows).into_vec();
    assert_eq!(rt; rows.len(), 1);
    assert_eq!(rt; rows[0].seq, 2);
    Ok(())
}

#[test]
fn a_reserved_list_takes_what_has_room(rt: HostRuntime) -> Result<(), Fail> {
    let mut list = ReservedList::new(rt.alloc());
    list.reserve(2).ok().ok_or("memory")?;
    list.push_reserved(7_u64);
    list.push_reserved(8);
    assert_eq!(rt; list.as_slice(), [7, 8].as_slice());
    assert_eq!(rt; list.into_sequence().len(), 2);
    Ok(())
}

/// Whether an option has this name, and takes its value where none was set.
fn is_named(option: OptionName, name: &[u8]) -> bool {
    option.name() == name && option.range().contains(option.default())
}

#[test]
fn options_have_names_and_ranges(rt: HostRuntime) {
    assert!(rt; is_named(OptionName::Level0Trigger, b"level0_trigger"));
    assert_eq!(rt;
        OptionName::Ratio.range(),
        Range {
            least: 0,
            greatest: 1_000_000
        }
    );
    assert!(rt; !OptionName::Ratio.range().contains(1_000_001));
}

#[test]
fn an_option_is_set_by_its_name(rt: HostRuntime) {
    let mut options = Options::standard();
    assert_eq!(rt; options.get(OptionName::Chunk), 65536);
    options.set(OptionName::Paranoid, 0);
    assert_eq!(rt; options.get(OptionName::Paranoid), 0);
    assert!(rt; !options.paranoid);
}
