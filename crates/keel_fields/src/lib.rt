//! Reading the fields of a binary format from left to right: numbers in little-endian order, and runs of
//! bytes.
//!
//! Each function takes its field from the front of the bytes and gives the bytes behind it, so that a
//! format is read by `?` after `?`. Where a field isn't there in full or isn't allowed, the error says
//! how many bytes were left where it begins; its place in the whole is the whole length less that.
//!
//! `specs/Reading` has the same as functions that contracts cite, with the ways to put fields together.
//! `proofs/Fields` proves, for each of these ways, that a value is read back from its text, and that
//! only its text gives it.
#![tactic(auto)]

mod error;
mod reading;

pub use error::FieldError;
pub use reading::{bytes_at, u8_at, u32_at, u32_between, u64_at, u64_between};

#[cfg(test)]
mod tests;
