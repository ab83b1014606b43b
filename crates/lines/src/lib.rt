#![tactic(auto)]

// The lines that a listing of a log is made of, each appended to a text.
pub mod log;
mod parts;
pub mod question;
#[cfg(test)]
mod tests;
pub mod text;
