// What the parts answer, where entries stand, and how large a survey can be. The definitions stand in specs/, their laws in proofs/.
#![tactic(auto)]

pub mod answers;
pub mod limits;
pub mod stands;
