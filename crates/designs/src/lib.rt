#![tactic(auto)]

pub mod best;
pub mod cell;
pub mod choosing;
pub mod comparing;
pub mod design;
pub mod drawing;
pub mod fault;
pub mod joining;
pub mod row;
pub mod side;
