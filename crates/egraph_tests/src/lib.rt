#![tactic(auto)]

// Tests of the calls on a case, from outside.
#[cfg(test)]
mod tests;
