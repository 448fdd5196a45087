// What a driver arranges on a simulated device.

use keel_base::{Call, Fault};

/// How a simulated device is to fail, or how much it holds.
#[derive(Clone, Copy, Debug)]
pub enum Rule {
    /// After `skip` calls of this kind the next `times` ones fail with this fault. A failing append keeps the
    /// first `keep` bytes as read, a failing sync of the directory makes the first `keep` waiting operations
    /// firm, and another failing call is done where `keep` isn't 0.
    Fail {
        call: Call,
        fault: Fault,
        skip: u64,
        times: u64,
        keep: u64,
    },
    /// The bytes that all named files together may have.
    Capacity(u64),
}

/// What a crash is to leave: the first `dirops` waiting operations are done, and each file keeps `keep` bytes
/// past the firm ones. Of the bytes behind these, the next `garbage` ones are replaced by `seed`, `seed + 1`
/// and so on, modulo 256, and the rest is lost.
#[derive(Clone, Copy, Debug)]
pub struct Pick {
    pub dirops: u64,
    pub keep: u64,
    pub garbage: u64,
    pub seed: u64,
}

/// What a driver arranged on a simulated device, as it was handed in.
#[derive(Clone, Copy, Debug)]
pub enum Arranged {
    Armed(Rule),
    Crashed(Pick),
}
