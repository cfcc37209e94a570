#![tactic(auto)]
// Margins and payments by example.
#[cfg(test)]
mod tests;
