#![tactic(auto)]

pub mod delivered;
pub mod names;
pub mod node;
pub mod prices;
pub mod rule;
pub mod rules;
pub mod size;
