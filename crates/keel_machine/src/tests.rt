use crate::laws;

#[test]
fn the_laws_hold() {
    laws::one_call_a_step();
    laws::failure_stops();
    laws::log_failure_stops();
    laws::manifest_failure_stops();
    laws::stops_at_two();
    laws::one_call_a_flush();
    laws::stopped_work_rests();
    laws::full_queue_stops();
    laws::closing_ends();
    laws::boot_ends();
    laws::first_boot();
    laws::first_put();
    laws::second_put();
    laws::full_queue();
    laws::full_segment();
    laws::first_flush();
    laws::first_resume();
}
