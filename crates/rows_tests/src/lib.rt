#![tactic(auto)]
// Examples for the lines of a sheet.
#[cfg(test)]
mod tests;
