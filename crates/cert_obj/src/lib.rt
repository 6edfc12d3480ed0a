//! The format of a certificate of the RPKI, read and written: what is signed (RFC 5280 section
//! 4.1.2, RFC 6487 section 4), its extensions (RFC 6487 section 4.8) and number resources (RFC 3779
//! sections 2.2 and 3.2).
#![tactic(auto)]

mod extension_writing;
mod fixed;
mod holding_writing;
mod holdings;
mod kinds;
mod reading;
mod spelling;
mod uris;
mod values;
mod writing;

pub use reading::read;
pub use spelling::are_sets;
pub use values::{Cert, CertKind, CertUris, Held, ReadCert};
pub use writing::write;
