// Terms, as records in prefix order.
#![tactic(auto)]

pub mod form;
pub mod kind;
pub mod operations;
mod reader;
pub mod records;
pub mod replace;
