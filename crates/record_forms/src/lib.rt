//! How records of a journal are put together of fields, written and read: numbers, bytes and lists,
//! one behind another.
#![tactic(auto)]

mod fault;
mod lists;
mod reading;
mod writing;

pub use fault::ReadFault;
pub use lists::{ItemReader, ItemWriter, counted, counted_len, push_counted};
pub use reading::{behind_byte, front, number_8, number_32, number_64, sized};
pub use writing::{push_32, push_64, push_count, push_sized};
