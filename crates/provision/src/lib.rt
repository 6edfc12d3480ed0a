//! What a parent answers to the requests of a child (RFC 6492 section 3).
#![tactic(auto)]

ghost use Rattle.std.specs.Prelude.{IfOk};
ghost use Rattle.provision.specs.Answer.{IsAnswer};

use key_ids::KeyId;
use res_sets::Resources;
use std::alloc::{AllocError, Global};

/// What a parent has for a child: one class, whose name is `0`, with what the child is certified for
/// (RFC 6492 section 3.3.2).
#[derive(Debug, Drop)]
pub struct Class {
    pub resources: Resources,
    /// The keys of the child that have a certificate of the class.
    pub keys: Vec<KeyId>,
}

/// A child's request (RFC 6492 section 3).
#[derive(Debug, Drop)]
pub enum Request {
    /// Which classes there are for it (section 3.3).
    List,
    /// A certificate of that class for a key (section 3.4).
    Issue { class: String, key: KeyId },
    /// That a key's certificates of that class be revoked (section 3.5).
    Revoke { class: String, key: KeyId },
}

/// The parent's answer (RFC 6492 section 3).
#[derive(Debug, Drop)]
pub enum Reply {
    /// There is no class for this child.
    NoClass,
    /// The class and its resources.
    Class { resources: Resources },
    /// The key is certified for these resources.
    Issued { key: KeyId, resources: Resources },
    /// The key's certificates are revoked.
    Revoked { key: KeyId },
    /// The request is refused, with its code by section 3.6: 1201 for an unknown class, 1202 where
    /// the class has no resources, 1301 for an unknown class of a revocation, 1302 where the key
    /// has no certificate.
    Error { code: u32 },
}

const UNKNOWN_CLASS: u32 = 1201;

const NO_RESOURCES: u32 = 1202;

const UNKNOWN_CLASS_TO_REVOKE: u32 = 1301;

const UNKNOWN_KEY: u32 = 1302;

/// The answer to a request of the child that the class is for (RFC 6492 sections 3.3.2, 3.4.2, 3.5.2
/// and 3.6).
///
/// Of a request for a certificate the class's name is asked first, which is code 1201, and then
/// whether the class has resources, which is code 1202. Of a request to revoke it is the class's name
/// too, code 1301, and then whether the key has a certificate, code 1302.
pub fn answer(alloc: Global, class: &Class, request: &Request) -> Result<Reply, AllocError>
    ensures { IfOk result (IsAnswer class.now.resources class.now.keys.items request.now) }
{
    let held = &class.resources;
    match request {
        Request::List if held.is_empty() => Ok(Reply::NoClass),
        Request::List => Ok(Reply::Class {
            resources: held.copy(alloc)?,
        }),
        Request::Issue { class: name, .. } if name.as_str() != "0" => Ok(Reply::Error {
            code: UNKNOWN_CLASS,
        }),
        Request::Issue { .. } if held.is_empty() => Ok(Reply::Error { code: NO_RESOURCES }),
        Request::Issue { key, .. } => Ok(Reply::Issued {
            key: *key,
            resources: held.copy(alloc)?,
        }),
        Request::Revoke { class: name, .. } if name.as_str() != "0" => Ok(Reply::Error {
            code: UNKNOWN_CLASS_TO_REVOKE,
        }),
        Request::Revoke { key, .. } if class.keys.contains(key) => Ok(Reply::Revoked { key: *key }),
        Request::Revoke { .. } => Ok(Reply::Error { code: UNKNOWN_KEY }),
    }
}
