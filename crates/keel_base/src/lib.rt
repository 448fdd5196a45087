//! What every layer of the store shares.
//!
//! - `Sequence`, and under names of their own `Bytes`, `Ops`, `Batches`, `Listing`: lists on the heap.
//! - `ReservedList`: a list whose room is taken first, so that adding to it can't fail.
//! - `Op` and `Batch`: changes of the map, and what they weigh.
//! - `LONGEST_KEY`, `LONGEST_VALUE`, `MOST_OPS`, `GREATEST_WEIGHT`, `LAST_NUMBER`: the bounds of what a store takes and
//!   numbers.
//! - `Row` and `Kind`: what a change leaves of a key; of a key's rows the newest counts.
//! - `FileName`, `Fault`, `Reason`, `Failure`, `Grade`, `Call`: the words in which layers speak of the device.
//! - `Options`, and `OptionName` with each option's name, range and value where none was set.
//! - `Source` and `Sink`: where input comes from and output goes, in memory and over the standard streams.
//!
//! A refusal for want of memory is always a value of its own, `OutOfMemory`, and leaves things as they were.
//! Any other fault of the outside raises a count that contracts see: it never falls, and stops at 2^64 - 1.
#![tactic(auto)]

mod adapter;
mod bytes;
mod failure;
mod file_name;
mod in_memory;
mod limits;
mod listing;
mod memory;
mod op;
mod option_name;
mod options;
mod reserved;
mod row;
mod sequence;
mod sink;
mod source;

pub use adapter::{ReadSource, WriteSink};
pub use bytes::Bytes;
pub use failure::{Call, Counter, Failed, Failure, Fault, Grade, Reason, SlotName};
pub use file_name::{FileName, same_name};
pub use in_memory::{Calls, MemSink, MemSource, PlainSink, PlainSource};
pub use limits::{GREATEST_WEIGHT, LAST_NUMBER, LONGEST_KEY, LONGEST_VALUE, MOST_OPS};
pub use listing::{Entry, Listing};
pub use memory::OutOfMemory;
pub use op::{Batch, Batches, Op, Ops, ops_weight, weight};
pub use option_name::{OptionName, Range};
pub use options::Options;
pub use reserved::ReservedList;
pub use row::{Kind, Row, RowLists, Rows};
pub use sequence::Sequence;
pub use sink::{Sink, give_all};
pub use source::{Source, TakeEnd, take_all};

#[cfg(test)]
mod tests;
