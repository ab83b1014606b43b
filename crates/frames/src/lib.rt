#![tactic(auto)]

// The frame rules: which solver frames are open, how many givens each has, and which of them count.
pub mod every;
pub mod laws;
pub mod live;
pub mod rule;
pub mod run;
mod table;
pub mod table_rule;
#[cfg(test)]
mod tests;
