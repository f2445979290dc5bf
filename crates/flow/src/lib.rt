// Waves: the heaviest closed set, with the amounts that prove it, and the set that drains, which the checker asks for too.
#![tactic(auto)]

mod chains;
mod copies;
pub mod draining;
mod drains;
mod ends;
pub mod heavy;
mod sends;
pub mod sizes;
mod spills;
mod tides;
mod waves;
mod ways;
