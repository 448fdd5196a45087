use crate::{flush_laws, laws};

#[test]
fn stories_and_devices() {
    laws::way_reads();
    laws::way_is_read();
    laws::keeping_stands();
    laws::crash_leaves_prefix();
    laws::reading_leaves_prefix();
    laws::call_leaves_prefix();
}

#[test]
fn calls() {
    laws::create_makes();
    laws::create_keeps();
    laws::sync_dir_keeps();
    laws::log_append_keeps();
    laws::log_sync_keeps();
    laws::publish_keeps();
}

#[test]
fn the_machine() {
    laws::starts_covered();
    laws::opening_boots();
    laws::covered_stands();
    laws::covered_bears();
    laws::crash_turns();
    laws::inside_step();
    laws::steps_are_safe();
    laws::flushes_are_safe();
    laws::covered_reads();
    laws::opening_goes_on();
    laws::footing_stays();
}

#[test]
fn worked_examples() {
    laws::two_puts();
    laws::empty_is_first();
}

#[test]
fn flushes() {
    flush_laws::tables_are_below();
    flush_laws::table_create_keeps();
    flush_laws::table_append_keeps();
    flush_laws::table_sync_keeps();
    flush_laws::table_name_keeps();
    flush_laws::table_stays();
    flush_laws::logs_stay();
    flush_laws::edit_append_keeps();
    flush_laws::edit_sync_keeps();
    flush_laws::open_way_stays();
    flush_laws::edit_gives();
    flush_laws::flush_ends();
}
