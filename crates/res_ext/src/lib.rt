//! The certificate extensions for number resources (RFC 3779 sections 2.2 and 3.2): read as parts
//! of an object, and each as bytes of its own.
#![tactic(auto)]

mod as_numbers;
mod as_reading;
mod blocks;
mod choices;
mod elements;
mod families;
mod fault;
mod ip_addresses;
mod ip_reading;
mod laws;
mod leading;
mod values;
mod writing;

pub use as_numbers::{inherit_as, read_as, write_as};
pub use as_reading::{as_content, as_identifiers};
pub use choices::{family_number, family_part};
pub use fault::ExtFault;
pub use ip_addresses::{inherit_ip, read_ip, write_ip};
pub use ip_reading::{ip_blocks, ip_content};
pub use laws::{one_as, one_ip, written_as_is_read, written_ip_is_read};
pub use leading::{
    kept_of_first, kept_of_last, leading as leading_bits, push_leading, push_leading_of_last,
};
pub use values::{AsRead, IpRead};
pub use writing::{push_as_identifiers, push_inherited_as, push_inherited_ip, push_ip_blocks};
