//! The laws, stated where they are called.

use ion_text_out::laws::{
    are_layouts, each_text_is_that_of_items, items_add_their_text, path_text_is_that_of_items,
    text_is_that_of_items,
};

#[test]
fn states_laws() {
    are_layouts();
    each_text_is_that_of_items();
    items_add_their_text();
    text_is_that_of_items();
    path_text_is_that_of_items();
}
