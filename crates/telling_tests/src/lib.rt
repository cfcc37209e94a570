#![tactic(auto)]
// Examples for the texts of the walkthrough.
#[cfg(test)]
mod tests;
