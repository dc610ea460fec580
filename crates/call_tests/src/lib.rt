//! The tests of the public calls of the lower crates.
#![tactic(auto)]

#[cfg(test)]
mod account_book_tests;
#[cfg(test)]
mod amount_forest_tests;
#[cfg(test)]
mod batch_records_put_tests;
#[cfg(test)]
mod batch_records_tests;
#[cfg(test)]
mod cash_amounts_tests;
#[cfg(test)]
mod clock_stops_tests;
#[cfg(test)]
mod commit_journal_tests;
#[cfg(test)]
mod day_facts_tests;
#[cfg(test)]
mod disk_model_tests;
#[cfg(test)]
mod first_of_key_tests;
#[cfg(test)]
mod growing_set_tests;
#[cfg(test)]
mod least_tree_tests;
#[cfg(test)]
mod message_names_tests;
#[cfg(test)]
mod number_set_tests;
#[cfg(test)]
mod outside_io_tests;
#[cfg(test)]
mod period_calendar_tests;
#[cfg(test)]
mod ready_items_tests;
#[cfg(test)]
mod record_rows_tests;
#[cfg(test)]
mod row_list_tests;
#[cfg(test)]
mod rule_book_tests;
#[cfg(test)]
mod setup_tests;
#[cfg(test)]
mod status_messages_text_tests;
