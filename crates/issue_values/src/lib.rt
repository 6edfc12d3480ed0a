//! The values of an edition's objects: what each certificate (RFC 6487), CRL (RFC 5280 section 5),
//! manifest (RFC 9286) and ROA (RFC 9582) says, with its dates, URIs and resources; and laws of
//! their URIs: no two objects stand at one.
#![tactic(auto)]

mod bodies;
mod certificates;
mod prefixes;
mod publishers;
mod uri_laws;
mod uris;

pub use bodies::{key_crl, manifest_body, roa_body};
pub use certificates::{
    CERTIFICATE_LIFE, POINT_LIFE, anchor_certificate, authority_certificate, manifest_certificate,
    roa_certificate,
};
pub use publishers::Publisher;
pub use uri_laws::{
    files_are_told_apart, keys_are_told_apart, kinds_are_told_apart, origin_texts_are_ascii,
    origins_are_told_apart,
};
pub use uris::{can_be_named, can_publish};
