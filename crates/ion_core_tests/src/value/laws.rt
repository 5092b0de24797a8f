//! The laws, stated where they are called.

use ion_value::laws::{
    a_path_is_its_items, decimal_bodies, decimal_bytes_are_read, decimal_bytes_are_shortest,
    decimal_text_is_read, int_bytes_are_read, int_text_is_read, local_is_back,
    no_number_is_a_timestamp, one_shape, timestamp_bytes_are_read, timestamp_bytes_are_shortest,
    timestamp_text_is_read, utc_is_back, var_int_bytes_are_read, var_int_is_unique,
    var_uint_bytes_are_read, var_uint_is_unique,
};

#[test]
fn states_laws() {
    var_uint_is_unique();
    var_int_is_unique();
    var_uint_bytes_are_read();
    var_int_bytes_are_read();
    int_bytes_are_read();
    decimal_bodies();
    decimal_bytes_are_read();
    decimal_bytes_are_shortest();
    utc_is_back();
    local_is_back();
    timestamp_bytes_are_read();
    timestamp_bytes_are_shortest();
    a_path_is_its_items();
    int_text_is_read();
    decimal_text_is_read();
    one_shape();
    timestamp_text_is_read();
    no_number_is_a_timestamp();
}
