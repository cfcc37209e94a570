#![tactic(auto)]
// Examples for power terms.
#[cfg(test)]
mod tests;
