mod day_tests;
mod find_tests;
mod list_tests;
mod walk_tests;
