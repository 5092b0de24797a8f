//! The laws, stated where they are called.

use ion_symbols::laws::{
    accepted_streams_lead_to_the_top, catalogs_are_read, catalogs_are_tables,
    declarations_are_read, declarations_leave_the_table, open_users_are_read, symbols_stand,
    tables_of_users_are_text, texts_of_users_are_short, users_are_read, users_hang_on_no_place,
    users_of_raw_values, users_read_on, values_keep_the_table, what_is_accepted,
    what_is_accepted_is_resolved, what_is_declared, what_is_resolved_is_accepted,
    why_catalogs_are_refused, why_refused, why_users_stop,
};

#[test]
fn states_laws() {
    declarations_are_read();
    what_is_declared();
    why_refused();
    what_is_accepted();
    users_are_read();
    open_users_are_read();
    symbols_stand();
    why_users_stop();
    catalogs_are_read();
    catalogs_are_tables();
    why_catalogs_are_refused();
    what_is_resolved_is_accepted();
    what_is_accepted_is_resolved();
    users_of_raw_values();
    tables_of_users_are_text();
    texts_of_users_are_short();
    users_read_on();
    accepted_streams_lead_to_the_top();
    values_keep_the_table();
    declarations_leave_the_table();
    users_hang_on_no_place();
}
