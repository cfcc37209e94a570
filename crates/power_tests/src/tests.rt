mod chain_tests;
mod class_tests;
mod holiday_tests;
mod hour_tests;
