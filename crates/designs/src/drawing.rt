use crate::row::Row;

pub mod reading;

// A left row and a right row.
#[derive(Clone, Copy)]
pub struct Drawing {
    pub left: Row,
    pub right: Row,
}
