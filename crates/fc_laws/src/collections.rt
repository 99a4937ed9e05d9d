//! Laws of collections, and of what is printed for them.

pub mod closed;
pub mod figures;
pub mod groups;
pub mod hashes;
pub mod lines;
pub mod lists;
pub mod records;
pub mod rows;
pub mod same;
pub mod shares;
pub mod symmetries;
pub mod table;
pub mod unique;
