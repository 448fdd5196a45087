//! A folder of the host as a device.
//!
//! - `DirDisk`: the calls of a device on the files of one folder. No failure or crash can be arranged on it.
//!
//! Proved: it is safe, it counts its changing calls and its failures, a listing is in order and has names of the store
//! alone, and a failure of the host is answered as `NoSpace` where the host says that its storage is full or a quota
//! exceeded, and else as `Plain`. An append isn't made where the bytes counted and its own are more than the budget; it
//! is then answered `NoSpace`, and the host isn't called. No call goes well on a folder that isn't locked. An open file
//! stays open until its bytes and cuts are durable or the host has taken it away.
//!
//! Not proved, since no contract can say it: what the host does. That a folder behaves as the model of `keel_disk` says
//! is trusted. So much is asked of the host and of its file system:
//!
//! | call | what is durable behind its Ok | calls of the host | who gives it |
//! |---|---|---|---|
//! | `create`, `rename`, `remove` | nothing yet | `open`, `rename`, `unlink` | |
//! | `append`, `cut` | nothing yet | `write`, `ftruncate` | |
//! | `sync` | all bytes of the file | `fdatasync` of the file | ext4, XFS, btrfs |
//! | `sync_dir` | all changes of names | `fsync` of the folder | ext4, XFS, btrfs |
//! | | then each cut | `fsync` of each file that was cut | ext4, XFS, btrfs |
//! | each | changes of names and cuts that last do so in order | none | ext4, XFS: one journal |
//!
//! The last line: of changes that wait for `sync_dir`, a crash may do the first few, and no later one without these.
//! ext4 and XFS are meant as they are mounted by default. btrfs isn't known to keep that order, and tmpfs keeps nothing
//! when the power goes, though all when only the program ends. A file system without `flock` on folders can't be used.
//!
//! How the host is called:
//!
//! - The first call opens the folder read-only and locks it, with `flock`, and the folder stays open and locked as
//!   long as the device is there. No file is made for it, and the lock ends with the program however that ends. While
//!   another device has the folder, of this program or of another, each call fails with `Plain` and changes nothing.
//! - Bytes are synced on the descriptor that took them. A file that isn't open, as one of an earlier process, is opened
//!   for it.
//! - `rename` replaces a file in one step, and so does `create` of a name that is there: the new file is made as
//!   NAME.new, in place of a file that has that name, and then given the other. Behind a crash NAME.new may be left; it
//!   is no file of the store.
//! - A `rename` or `remove` that the host refuses is taken as not done, and closes no file.
//! - At most 16 files stay open, and more only while their bytes or cuts aren't durable. The one unused longest is
//!   closed first.
//! - The bytes counted are the sizes of the store's files, as they are found in the folder at the first `append` or
//!   `free`, and what calls that went well have changed since. They are found again behind a `create`, `append`,
//!   `rename`, `remove` or `cut` that failed. What room the host has isn't asked: `free` tells what the budget leaves.
//!
//! Where something else than a regular file has a name of the store, as a link, it is left alone, and calls that meet
//! it fail. Any other name but NAME.new is never listed, counted, opened or changed. The path of the folder is taken as
//! it is given; an empty one names no folder. No program that takes no lock may change the store's files meanwhile.
//!
//! It stands on `keel_disk` for the traits and on `keel_name` for the names of files and their order.
#![tactic(auto)]

mod budget;
mod dir_disk;
mod folder;
mod held;
mod host;
mod listing;
mod stop;
mod tally;

pub use dir_disk::DirDisk;
