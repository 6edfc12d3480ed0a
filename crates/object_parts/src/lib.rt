//! What certificates, CRLs and signed objects share: identifiers, times, algorithms (RFC 7935),
//! names, extensions (RFC 5280 section 4.2) and signed frames (RFC 5280 section 4.1).
#![tactic(auto)]

mod frames;
pub mod identifiers;
mod names;
mod times;
mod writers;

pub use frames::{
    SignedParts, attribute, critical_extension, digest_algorithm, extension, identifier,
    issuer_key, issuer_key_identifier, key_algorithm, key_identifier, key_info,
    signature_algorithm, signed,
};
pub use names::name;
pub use times::{general_time, period, time};
pub use writers::{
    push_critical_extension, push_digest_algorithm, push_extension, push_general_time,
    push_identifier, push_issuer_key, push_issuer_key_identifier, push_key_algorithm,
    push_key_identifier, push_key_info, push_name, push_octet_bits, push_period,
    push_signature_algorithm, push_time, write_signed,
};
