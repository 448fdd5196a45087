// The lines of an input, up to what ends them.
use keel_base::{Bytes, Calls, Failed, MemSource, OutOfMemory, Source};
use keel_lines::{LineEnd, LineReader};
use std::alloc::Global;
use std::test::Fail;

// The lines of a text with a bar behind each, and why there are no more. One call of its source fails.
fn lines_of(
    alloc: Global,
    text: &[u8],
    fails: u64,
) -> Result<(Bytes, Option<LineEnd>), OutOfMemory> {
    let mut calls = Calls::new(alloc);
    calls.push(fails)?;
    let source = MemSource::new(Bytes::from_slice(alloc, text)?, calls);
    let mut reader = LineReader::new(alloc, source);
    let mut lines = Bytes::new(alloc);
    for _ in 0..10 {
        match reader.next() {
            Ok(Some(line)) => {
                lines.extend(line.as_slice())?;
                lines.extend(b"|")?;
            }
            Ok(None) => return Ok((lines, None)),
            Err(end) => return Ok((lines, Some(end))),
        }
    }
    Ok((lines, None))
}

#[test]
fn the_last_line_may_lack_its_newline(rt: HostRuntime) -> Result<(), Fail> {
    let (lines, end) = lines_of(rt.alloc(), b"\n a\r\nbc", 9).ok().ok_or("memory")?;
    assert_eq!(rt; lines.as_slice(), b"| a\r|bc|".as_slice());
    assert_eq!(rt; end, None);
    Ok(())
}

#[test]
fn a_fault_ends_the_lines(rt: HostRuntime) -> Result<(), Fail> {
    let (lines, end) = lines_of(rt.alloc(), b"a\nbc", 1).ok().ok_or("memory")?;
    assert_eq!(rt; lines.as_slice(), b"a|".as_slice());
    assert_eq!(rt; end, Some(LineEnd::Fault));
    Ok(())
}

// So many pieces, of which two make a line of 8192 bytes with its newline, and then some bytes.
#[derive(Drop)]
struct Pieces {
    count: u64,
    last: usize,
}

impl Source for Pieces {
    ghost use Rattle.std.specs.Prelude.{None};

    ghost remaining = { λ _. None };

    ghost faults = { λ _. 0 };

    fn take(&mut self, buffer: &mut [u8]) -> Result<usize, Failed> {
        buffer.fill(b'x');
        if self.count == 0 {
            let last = self.last.min(buffer.len());
            self.last -= last;
            return Ok(last);
        }
        self.count -= 1;
        if self.count % 2 == 0
            && let Some(end) = buffer.last_mut()
        {
            *end = b'\n';
        }
        Ok(buffer.len())
    }
}

// How many lines the pieces have, and why there are no more.
fn lines_in(alloc: Global, count: u64, last: usize) -> (u64, Option<LineEnd>) {
    let mut reader = LineReader::new(alloc, Pieces { count, last });
    let mut lines: u64 = 0;
    for _ in 0..10_000 {
        match reader.next() {
            Ok(Some(_)) => lines = lines.saturating_add(1),
            Ok(None) => return (lines, None),
            Err(end) => return (lines, Some(end)),
        }
    }
    let _ = reader.into_source();
    (lines, None)
}

#[test]
fn an_input_of_most_bytes_is_read(rt: HostRuntime) {
    assert_eq!(rt; lines_in(rt.alloc(), 16384, 0), (8192, None));
}

#[test]
fn a_byte_more_is_a_long_input(rt: HostRuntime) {
    assert_eq!(rt;
        lines_in(rt.alloc(), 16384, 1),
        (8192, Some(LineEnd::LongInput))
    );
}
