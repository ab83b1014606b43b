#![tactic(auto)]

pub mod equality;
pub mod error;
pub mod items;
pub mod laws;
