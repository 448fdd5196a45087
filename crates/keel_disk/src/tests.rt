use crate::{DiskError, ReadError, laws};
use keel_base::OutOfMemory;

#[test]
fn want_of_memory_is_no_fault(rt: HostRuntime) {
    assert_eq!(rt; DiskError::from(OutOfMemory), DiskError::OutOfMemory);
    assert_eq!(rt; ReadError::from(OutOfMemory), ReadError::OutOfMemory);
}

#[test]
fn the_laws_hold() {
    laws::crash_inside_call();
    laws::calls_keep_sound();
    laws::crashes_come_to_rest();
    laws::one_image_at_rest();
    laws::names_stay();
    laws::present_becomes_steady();
    laws::all_read_stays();
    laws::settled_twice();
}
