// One block of a survey file: the view that it is read through, and its two sums.
#![tactic(auto)]

pub mod sums;
pub mod view;
