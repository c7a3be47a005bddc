#![tactic(auto)]

pub mod amount;
pub mod line;
pub mod link;
pub mod measure;
pub mod pair;
pub mod pairing;
pub mod strands;
pub mod sum;
pub mod summing;
pub mod trunks;
