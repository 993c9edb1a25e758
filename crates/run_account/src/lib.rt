//! What a run cost and why, in numbers: the items that its events count for, by what happened before; the table of the numbers; and
//! the table as text.
#![tactic(auto)]

mod access;
mod accesses;
mod account;
mod beside;
mod cache;
mod columns;
mod copies;
mod counting;
mod csv;
mod departure;
mod form;
mod item;
mod laws;
mod list_laws;
mod list_noting;
mod list_row;
mod listing;
mod lists;
mod measure;
mod messages;
mod names;
mod nodes;
mod noting;
mod retired;
mod served;
mod table;
mod table_laws;
mod text;
mod traffic;
mod traffic_laws;
mod traffic_row;

pub use access::{AccessKind, CountedAccess};
pub use account::Account;
pub use cache::{Line, Share};
pub use departure::{Departure, Handing, Occasion};
pub use form::Form;
pub use item::{Grouping, Item};
pub use laws::{
    a_run_has_the_numbers_of_its_account, cores_add_up, each_miss_has_one_reason, evictions_add_up,
    grants_add_up, local_loads_are_loads, phases_add_up, regions_add_up, replies_add_up,
};
pub use list_laws::{
    a_run_beside_lists_has_the_numbers_of_its_table, a_set_has_no_more_words_than_ways,
    an_owner_is_alone, groups_beside_lists_add_up, invalidations_are_acknowledged,
    list_messages_are_of_nine_kinds, messages_are_the_mails_about_words, requests_are_answered,
    waits_alone_are_the_difference, words_that_go_are_acknowledged,
};
pub use list_noting::listing_of;
pub use list_row::ListRow;
pub use listing::Listing;
pub use lists::Lists;
pub use measure::Measure;
pub use noting::account_of;
pub use table::AccountTable;
pub use table_laws::{
    a_number_is_a_count, a_word_is_in_its_region, groups_add_up, items_are_counted_list_by_list,
};
pub use text::{push_account, push_lists, push_traffic};
pub use traffic_laws::{bytes_are_those_of_the_messages, each_message_is_counted_for_its_kind};
pub use traffic_row::TrafficRow;
