//! The tests of the public calls of the top call and of two crates below it.
#![tactic(auto)]

#[cfg(test)]
mod as_client_tests;
#[cfg(test)]
mod rtgs_engine_tests;
#[cfg(test)]
mod trial_day_tests;
