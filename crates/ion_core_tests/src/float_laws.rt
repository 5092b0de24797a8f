//! The laws on floats, stated where they are called.
use ion_float::laws::{
    float_octets_are_fewest, float_octets_are_read, float_shape_is_refused, float_text_is_read,
    float_text_is_unique, shortest_ends_in_no_zero, shortest_has_the_fewest_digits,
    shortest_has_the_greatest_power, shortest_is_the_nearest, shortest_reads_back,
    what_the_shortest_is,
};

#[test]
fn states_laws() {
    shortest_reads_back();
    shortest_has_the_greatest_power();
    shortest_has_the_fewest_digits();
    shortest_is_the_nearest();
    what_the_shortest_is();
    shortest_ends_in_no_zero();
    float_octets_are_read();
    float_octets_are_fewest();
    float_text_is_read();
    float_text_is_unique();
    float_shape_is_refused();
}
