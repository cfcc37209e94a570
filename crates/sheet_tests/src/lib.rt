#![tactic(auto)]
// Examples for the day sheet.
#[cfg(test)]
mod days;
#[cfg(test)]
mod heads;
#[cfg(test)]
mod lines;
