//! A device: a directory of files that a crash may shorten, as its calls promise.
//!
//! - `Disk`: the calls of a store on its directory. Their clauses say what each answer leaves, where the device
//!   tells its state, and what causes each answer, of every device.
//! - `Device`: a disk on which failures and crashes can be arranged, where it is simulated.
//! - `Change`, `File`, `Operation`, `Rule`, `Pick`, `Arranged`: the calls and the parts of the model.
//! - `read_file`: a whole file, read in parts.
//! - Laws over the model: what a crash leaves, also inside a call, and what every call keeps.
//!
//! The model: names map to files, and files go by number. A file has the bytes that were handed in, a length up to
//! which they are firm, and the bytes that reads give. Changes of the directory, and cuts, wait in one list until
//! they are firm. A crash does the first few of them, and leaves of each file the firm bytes and anything behind.
//!
//! It stands on `keel_base`, and on the log format of `keel_frag` for what makes an image forged.
#![tactic(auto)]

mod change;
mod device;
mod disk;
mod error;
pub mod laws;
mod reading;
mod rule;
mod state;

pub use change::Change;
pub use device::Device;
pub use disk::Disk;
pub use error::{DiskError, ReadError};
pub use reading::read_file;
pub use rule::{Arranged, Pick, Rule};
pub use state::{File, Operation};

#[cfg(test)]
mod tests;
