//! What a party makes of its trades: its net positions, and the batch that settles them. And what it knows of a day by the
//! statuses that it is told.
#![tactic(auto)]

mod batch;
mod laws;
mod netting;
mod party;
mod report;
mod trade;
mod view;
mod views;

pub use batch::{BatchFault, batch_of};
pub use laws::{
    batches_balance, batches_fit_their_procedure, batches_state_their_own, legal_statuses_fit,
    nets_sum_to_zero, texts_agree, views_agree,
};
pub use netting::net;
pub use trade::{Position, Trade};
pub use view::{ViewFault, Word};
pub use views::{AsView, BankView};
