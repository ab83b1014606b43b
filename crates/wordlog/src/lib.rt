#![tactic(auto)]

// Word logs: the calls of a case as words of 32 bits, read and written.
pub mod bytes;
pub mod call;
mod kind;
pub mod reader;
mod shapes;
#[cfg(test)]
mod tests;
mod word;
pub mod writer;
