//! The laws, stated where they are called.

use ion_text_in::laws::{
    base64_is_read, blanks_change_no_step, blobs_are_base64, bool_text_is_read, clob_text_is_read,
    decimal_text_is_read, each_step_falls, each_step_follows, float_text_is_read, id_is_read,
    int_text_is_read, limits_are_exact, limits_only_cut_short, lines_are_cut, lines_are_read_apart,
    nothing_hangs_on_places, null_text_is_read, one_path, one_stream, parts_follow_in_turn,
    plain_bytes_are_spelled, plain_symbol_is_read, quoted_symbol_is_read, rightly_refused,
    streams_are_raw, streams_are_read, streams_within_limits_are_read, strict_is_read_alike,
    string_text_is_read, timestamp_text_is_read, tokens_are_raw, tokens_within_a_limit_are_read,
    values_read_are_within_limits, what_begins_a_token, what_ends_a_number, what_ends_a_symbol,
    what_is_read_is_spelled, what_is_read_is_within_limits, what_is_spelled_is_read,
    what_is_within_limits_is_read,
};

#[test]
fn states_laws() {
    what_is_read_is_spelled();
    each_step_follows();
    each_step_falls();
    what_is_spelled_is_read();
    streams_are_read();
    limits_only_cut_short();
    rightly_refused();
    limits_are_exact();
    one_path();
    one_stream();
    null_text_is_read();
    bool_text_is_read();
    int_text_is_read();
    decimal_text_is_read();
    float_text_is_read();
    strict_is_read_alike();
    timestamp_text_is_read();
    blobs_are_base64();
    base64_is_read();
    string_text_is_read();
    quoted_symbol_is_read();
    clob_text_is_read();
    plain_symbol_is_read();
    what_ends_a_number();
    what_ends_a_symbol();
    what_begins_a_token();
    blanks_change_no_step();
    parts_follow_in_turn();
    plain_bytes_are_spelled();
    what_is_within_limits_is_read();
    streams_within_limits_are_read();
    streams_are_raw();
    id_is_read();
    tokens_are_raw();
    tokens_within_a_limit_are_read();
    what_is_read_is_within_limits();
    values_read_are_within_limits();
    lines_are_read_apart();
    lines_are_cut();
    nothing_hangs_on_places();
}
