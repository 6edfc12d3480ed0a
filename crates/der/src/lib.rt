//! Reading and writing elements by the distinguished encoding rules of ASN.1 (DER, X.690 sections
//! 8, 10 and 11), and how formats of such elements are put together, for readers and for writers.
//!
//! Tags are single bytes, and a length has at most four bytes behind its first.
#![tactic(auto)]

mod fault;
mod laws;
mod leaves;
mod part;
mod parts;
mod reader;
mod readers;
mod shape_fault;
mod steps;
pub mod tags;
mod writer;

pub use fault::DerFault;
pub use laws::{
    longer_than_content, one_bits, one_element, one_unsigned, read_is_spelled,
    spelled_alone_is_read, spelled_is_read,
};
pub use leaves::{
    are_same, bits as bits_at, bits_content, constant, exactly, fixed, number, number_content,
    octet_bits, octets, short_number,
};
pub use part::Part;
pub use parts::{Bits, Element, bits_of, content_of, element_of, number_of};
pub use reader::Reader;
pub use readers::{FrontReader, Placed, WholeReader, many, object};
pub use shape_fault::ShapeFault;
pub use writer::{bits, element, enclose, unsigned};

const INTEGER: u8 = 2;

const BIT_STRING: u8 = 3;
