#![tactic(auto)]
// The products by name: what their classes are called and their quantities counted in.
mod product;

pub use product::Product;
