//! Microsoft's numbered deals.
#![tactic(auto)]

mod deals;
mod shuffle;

pub use deals::{DealFault, Numbered, deal, deal_board};
