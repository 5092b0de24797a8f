//! The laws, stated where they are called.

use ion_transcode::laws::{
    binary_is_complete, binary_is_sound, binary_is_spelled_once, binary_streams_join,
    catalog_verdicts_are_read, catalogs_are_loaded, catalogs_are_text, each_layout_is_read,
    each_layout_is_read_within, each_shown_text_is_accepted, faultless_paths_are_read,
    good_streams_are_accepted, layouts_are_alike, layouts_are_shown_alike, one_catalog,
    one_catalog_verdict, one_spelling, one_verdict, parts_are_the_whole,
    parts_of_binary_show_the_whole, refusals_of_binary_stand, refused_output_is_that_of_a_path,
    round_trip, show_once, streams_are_read, tables_are_catalogs, text_is_complete, text_is_read,
    text_is_read_within, text_is_sound, text_is_spelled_once, there_and_back,
    trees_in_order_are_accepted, values_of_streams, what_is_accepted_is_read,
    what_is_accepted_leaves_a_table, what_is_read_is_accepted, what_is_read_is_no_deeper,
    what_is_shown_is_accepted, what_may_be_kept, written_binary_is_accepted,
};

#[test]
fn states_laws() {
    binary_is_sound();
    text_is_sound();
    binary_is_complete();
    text_is_complete();
    binary_is_spelled_once();
    text_is_spelled_once();
    one_spelling();
    one_verdict();
    streams_are_read();
    faultless_paths_are_read();
    refused_output_is_that_of_a_path();
    catalog_verdicts_are_read();
    catalogs_are_loaded();
    tables_are_catalogs();
    one_catalog_verdict();
    one_catalog();
    catalogs_are_text();
    each_layout_is_read();
    text_is_read();
    layouts_are_alike();
    values_of_streams();
    round_trip();
    layouts_are_shown_alike();
    show_once();
    there_and_back();
    what_is_read_is_accepted();
    good_streams_are_accepted();
    trees_in_order_are_accepted();
    what_is_accepted_is_read();
    what_is_read_is_no_deeper();
    each_layout_is_read_within();
    text_is_read_within();
    each_shown_text_is_accepted();
    what_is_shown_is_accepted();
    written_binary_is_accepted();
    parts_are_the_whole();
    binary_streams_join();
    parts_of_binary_show_the_whole();
    refusals_of_binary_stand();
    what_is_accepted_leaves_a_table();
    what_may_be_kept();
}
