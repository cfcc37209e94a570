#![tactic(auto)]
// Examples for the journal of a book.
#[cfg(test)]
mod tests;
