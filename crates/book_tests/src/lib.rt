#![tactic(auto)]
// Examples for the calls of the book.
#[cfg(test)]
mod days;
#[cfg(test)]
mod own_terms;
#[cfg(test)]
mod tests;
