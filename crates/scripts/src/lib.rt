#![tactic(auto)]

pub mod command;
pub mod fault;
