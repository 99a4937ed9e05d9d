//! Cards of one deck of 52, as FreeCell and its kin are played with.
#![tactic(auto)]

mod card;
mod card_set;
mod group;
mod lanes;
mod order;
mod rank;
mod renaming;
mod suit;

pub use card::Card;
pub use card_set::CardSet;
pub use group::{Acts, Group};
pub use lanes::{rename_code, rename_lanes};
pub use order::Order;
pub use rank::Rank;
pub use renaming::Renaming;
pub use suit::Suit;
