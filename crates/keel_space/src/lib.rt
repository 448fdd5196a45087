//! How much room a store's files take.
//!
//! - `Space` tracks names with their sizes, each name once, and keeps running totals: `total` and `trash` are always
//!   the sums of the tracked sizes and of those with trash names (`total_of`, `trash_of`), found without a search.
//! - Compactions reserve the sizes of their inputs while they run: `reserve`, `release`, `reserved`.
//! - `reached` and `room` are the tests of the space limit, after RocksDB's SstFileManager (`specs/Formulas`).
//!
//! Sums are of 128 bits, so that none is cut off. Memory is taken by `grow` alone; what is tracked behind it can't
//! fail. It stands on `keel_base` alone.
#![tactic(auto)]

mod place;
mod space;
mod tracked;

pub use space::Space;

#[cfg(test)]
mod tests;
