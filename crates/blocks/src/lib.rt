// The blocks of a survey file: what is asked of each, and the faults 2 to 7 of a file.
#![tactic(auto)]

mod file;
mod searches;
mod tests;

pub use file::block_faults;
