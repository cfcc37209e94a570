#![tactic(auto)]
// Durum-wheat terms over any calendar.
mod classes;
mod expiries;
mod wheat;

pub use classes::class_name;
pub use expiries::last_trading_day;
pub use wheat::Wheat;
