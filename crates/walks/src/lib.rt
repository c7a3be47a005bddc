#![tactic(auto)]

pub mod fault;
pub mod level;
pub mod offered;
pub mod path;
pub mod report;
pub mod table;
pub mod walk;
