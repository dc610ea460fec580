//! The laws of legal histories.
#![tactic(auto)]

mod laws;

pub use laws::{
    all_laws, balances_fit, batches_of_d_move_in_turn, beginnings_are_legal,
    blocker_is_the_foremost, booked_at_most_once, booked_in_its_cycle, booked_in_its_time,
    booked_once, bounds_are_small, catches_up, closed_moves_nothing, conserved,
    credits_follow_debits, earliest_credit_is_free, end_is_last, ends_in_its_time,
    entries_settle_once, fund_pays_on_yes, goes_on, locked_in_cycles, messages_in_order,
    moved_as_stated, moves_are_real, never_below_zero, next_stop_is_the_least,
    nothing_follows_the_end, nothing_is_left, nothing_is_lost, objections_have_force,
    only_accepted_go_on, only_want, places_differ, plain_ends, queue_is_in_order,
    ready_wants_have_lines, reasons_match_lines, rejected_do_nothing, repeats_do_nothing,
    reserves_are_kept, room_changes_no_line, room_changes_no_order, runs_end, settles_in_time,
    stays_in_range, subs_give_back, taken_as_due, technical_of_a_holds_its_batches,
    technical_of_b_is_empty, time_waits, touches_its_accounts, unfinished_wants_have_lines,
    version_changes_no_line, version_changes_no_order, whole_or_nothing,
};
