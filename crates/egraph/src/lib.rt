#![tactic(auto)]

// The records of a case and its equality graph: logging, links, root walks and paths.
mod checks;
pub mod egraph;
pub mod enode;
pub mod equality;
mod filing;
mod givens_under;
mod links;
mod logging;
mod path;
mod records;
mod simple_path;
mod stack;
mod steps;
mod table;
mod walk;
