// What a command is answered, and its text.
ghost use Rattle.std.specs.Prelude.{◌≡◌, ◌++◌, length, IfOk, OnOk};
ghost use Rattle.std.specs.List.{flat_map};
ghost use Rattle.keel_cli.specs.Replies.{count_line, file_line, full_line, level_line, memory_line, replies_of, row_line, rows_line, text};
ghost use Rattle.keel_cli.specs.Telling.{level_replies};

use keel_base::{Bytes, Entry, Listing, OutOfMemory, Row, Rows};
use keel_machine::{LevelView, LevelsView};
use keel_script::{Reply, print_reply};
use std::alloc::Global;

/// The replies to one command.
#[derive(Drop)]
pub enum Answer {
    One(Reply),
    /// A line for each file, and their number.
    Files(Listing),
    /// A line for each row, and their number.
    Rows(Rows),
    /// A line for each level, and one for the memory.
    Levels(LevelsView),
}

// Adds the line of a reply.
fn add_line(alloc: Global, lines: &mut Bytes, reply: &Reply) -> Result<(), OutOfMemory>
    ensures { OnOk result (lines.new ≡ lines.old ++ full_line reply.now) }
{
    let line = print_reply(alloc, reply)?;
    lines.extend(line.as_slice())?;
    lines.extend(b"\n")
}

// Adds the line of a file.
fn add_file(alloc: Global, lines: &mut Bytes, entry: &Entry) -> Result<(), OutOfMemory>
    ensures { OnOk result (lines.new ≡ lines.old ++ file_line entry.now) }
{
    let reply = Reply::FileLine {
        name: entry.name,
        size: entry.size,
    };
    add_line(alloc, lines, &reply)
}

// Adds the line that says how many files there are.
fn add_count(alloc: Global, lines: &mut Bytes, count: u64) -> Result<(), OutOfMemory>
    ensures { OnOk result (lines.new ≡ lines.old ++ count_line count) }
{
    add_line(alloc, lines, &Reply::Files { count })
}

// The lines of files, and of their number.
fn list_text(alloc: Global, entries: &[Entry]) -> Result<Bytes, OutOfMemory>
    ensures { IfOk result (λ lines. lines ≡ flat_map file_line entries.now ++ count_line (length entries.now)) }
{
    let mut lines = Bytes::new(alloc);
    for entry in entries {
        add_file(alloc, &mut lines, entry)?;
    }
    add_count(alloc, &mut lines, entries.len() as u64)?;
    Ok(lines)
}

// Adds the line of a row.
#[tactic(auto, unfolding(crate::specs::Replies::row_line))]
fn add_row(alloc: Global, lines: &mut Bytes, row: &Row) -> Result<(), OutOfMemory>
    ensures { OnOk result (lines.new ≡ lines.old ++ row_line row.now) }
{
    let reply = Reply::Row {
        key: Bytes::from_slice(alloc, row.key.as_slice())?,
        value: Bytes::from_slice(alloc, row.value.as_slice())?,
    };
    add_line(alloc, lines, &reply)
}

// Adds the line that says how many rows there are.
fn add_row_count(alloc: Global, lines: &mut Bytes, count: u64) -> Result<(), OutOfMemory>
    ensures { OnOk result (lines.new ≡ lines.old ++ rows_line count) }
{
    add_line(alloc, lines, &Reply::Rows { count })
}

// The lines of rows, and of their number.
fn scan_text(alloc: Global, rows: &[Row]) -> Result<Bytes, OutOfMemory>
    ensures { IfOk result (λ lines. lines ≡ flat_map row_line rows.now ++ rows_line (length rows.now)) }
{
    let mut lines = Bytes::new(alloc);
    for row in rows {
        add_row(alloc, &mut lines, row)?;
    }
    add_row_count(alloc, &mut lines, rows.len() as u64)?;
    Ok(lines)
}

// Adds the line of a level.
fn add_level(
    alloc: Global,
    lines: &mut Bytes,
    level: u8,
    view: LevelView,
) -> Result<(), OutOfMemory>
    ensures { OnOk result (lines.new ≡ lines.old ++ level_line level view) }
{
    let reply = Reply::Level {
        level,
        files: view.files,
        bytes: view.bytes,
    };
    add_line(alloc, lines, &reply)
}

// Adds the line of the memory.
fn add_memory(alloc: Global, lines: &mut Bytes, view: LevelsView) -> Result<(), OutOfMemory>
    ensures { OnOk result (lines.new ≡ lines.old ++ memory_line view) }
{
    let reply = Reply::Memory {
        active: view.active,
        immutables: view.immutables,
        waiting: view.waiting,
    };
    add_line(alloc, lines, &reply)
}

// The lines of the levels, and of the memory.
fn levels_text(alloc: Global, view: LevelsView) -> Result<Bytes, OutOfMemory>
    ensures { IfOk result (λ lines. lines ≡ text (level_replies view)) }
{
    let mut lines = Bytes::new(alloc);
    add_level(alloc, &mut lines, 0, view.level0)?;
    add_level(alloc, &mut lines, 1, view.level1)?;
    add_level(alloc, &mut lines, 2, view.level2)?;
    add_level(alloc, &mut lines, 3, view.level3)?;
    add_memory(alloc, &mut lines, view)?;
    Ok(lines)
}

/// The text of an answer: each reply's line with its newline.
pub fn text_of(alloc: Global, answer: &Answer) -> Result<Bytes, OutOfMemory>
    ensures { IfOk result (λ lines. lines ≡ text (replies_of answer.now)) }
{
    match answer {
        Answer::One(reply) => {
            let mut lines = Bytes::new(alloc);
            add_line(alloc, &mut lines, reply)?;
            Ok(lines)
        }
        Answer::Files(listing) => list_text(alloc, listing.as_slice()),
        Answer::Rows(rows) => scan_text(alloc, rows.as_slice()),
        Answer::Levels(view) => levels_text(alloc, *view),
    }
}
