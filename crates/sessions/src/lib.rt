#![tactic(auto)]

pub mod measured;
pub mod rule;
pub mod session;
pub mod telling;
pub mod worked;
pub mod writing;
