//! The names of the store's files, printed and read.
//!
//! A name has one spelling, after RocksDB's file names: `000007.log`, `000007.sst`, `000007.sst.trash`,
//! `MANIFEST-000007`, `000007.dbtmp`, `CURRENT`. Numbers have zeros in front up to six digits and no further,
//! and go from 1 to 2^56 for the files of a store. The spellings are defined with `FileName`, in `keel_base`.
//!
//! - `print` and `read` go from a name to its spelling and back.
//! - `listed` sorts the files of a directory by their spellings, as listings are.
//! - `print_current` and `read_current` go from the number of a manifest to what CURRENT then holds and back.
//! - `laws` has what follows for names as such: no two names share a spelling, CURRENT names one manifest at most, and
//!   listings are in one order.
//! - `read_decimal` reads a number without zeros in front, for whoever else spells numbers so.
#![tactic(auto)]

mod current;
mod decimal;
pub mod laws;
mod printing;
mod reading;
mod sorting;
mod spelled;

pub use current::{print_current, read_current};
pub use decimal::read_decimal;
pub use printing::print;
pub use reading::read;
pub use sorting::listed;

#[cfg(test)]
mod tests;
