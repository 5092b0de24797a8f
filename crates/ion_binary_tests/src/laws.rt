//! That each law can be called.

use ion_binary::laws::{
    bodies_are_read, closed_size_by_counts, closed_size_by_places,
    closed_size_is_that_of_the_closing, declarations_are_accepted, each_end_is_a_cut,
    each_step_falls, each_step_follows, headers_are_shortest, ids_are_given,
    items_add_their_octets, items_are_refused_as_in_trees, items_put_the_form, limits_are_exact,
    limits_only_cut_short, more_bytes_go_on, no_stream_begins, none_is_refused_within,
    nothing_hangs_on_places, numbers_fit, numbers_in_text_fit, one_path, one_stream,
    open_items_put_what_is_whole, passed_limits_stop, refusals_are_stable,
    refused_items_add_nothing, rightly_refused, streams_are_raw, streams_are_read,
    streams_begin_with_a_marker, streams_within_limits_are_read, texts_within_fit,
    the_form_is_read, values_are_spelled, what_is_held_moves, what_is_read_is_spelled,
    what_is_spelled_is_read, what_is_within_is_short, what_is_written_is_resolved,
    what_is_written_is_within_limits, whole_values_are_cut, written_declarations_are_read,
};

#[test]
fn states_laws() {
    bodies_are_read();
    limits_only_cut_short();
    what_is_read_is_spelled();
    each_step_follows();
    each_step_falls();
    what_is_spelled_is_read();
    streams_are_read();
    streams_are_raw();
    one_path();
    one_stream();
    rightly_refused();
    refusals_are_stable();
    no_stream_begins();
    whole_values_are_cut();
    each_end_is_a_cut();
    nothing_hangs_on_places();
    streams_begin_with_a_marker();
    more_bytes_go_on();
    limits_are_exact();
    streams_within_limits_are_read();
    passed_limits_stop();
    items_put_the_form();
    open_items_put_what_is_whole();
    items_add_their_octets();
    refused_items_add_nothing();
    ids_are_given();
    closed_size_is_that_of_the_closing();
    items_are_refused_as_in_trees();
    none_is_refused_within();
    closed_size_by_places();
    closed_size_by_counts();
    headers_are_shortest();
    what_is_held_moves();
    values_are_spelled();
    written_declarations_are_read();
    declarations_are_accepted();
    the_form_is_read();
    what_is_within_is_short();
    numbers_fit();
    what_is_written_is_within_limits();
    what_is_written_is_resolved();
    numbers_in_text_fit();
    texts_within_fit();
}
