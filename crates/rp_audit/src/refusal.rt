//! Why a set isn't sound (RFC 6487 section 7, RFC 9286 section 6).

ghost use Rattle.std.specs.Prelude.{◌≡◌};
ghost use Rattle.rp_rules.specs.Checks.{found};
ghost use Rattle.rp_audit.specs.inner.Told.{IsRefusal, Tells, kept};

use rp_rules::Rule;
use std::alloc::{AllocError, Global};
use thiserror::Error;

/// Why an audit isn't Ok.
#[derive(Debug, Drop, Error)]
pub enum AuditRefused {
    /// The first object that the walk refuses, and the rule that it breaks.
    #[error("the object at {uri} breaks the rule {rule:?}")]
    Refused { uri: String, rule: Rule },
    /// Nothing is refused, and this is the least URI that the walk doesn't visit.
    #[error("the walk doesn't visit {uri}")]
    Unreached { uri: String },
    /// That signer failed.
    #[error("signer {signer} failed")]
    SignerFault { signer: u32 },
    #[error("out of memory")]
    Memory,
}

ghost use Rattle.rp_audit.specs.declared.refusal.AuditRefused.TheVariants.{Memory};

impl From<AllocError> for AuditRefused {
    ghost from_gives = { λ _ fault. fault ≡ Memory };

    fn from(_: AllocError) -> Self {
        AuditRefused::Memory
    }
}

/// That the object at the URI breaks the rule.
pub fn refusal(alloc: Global, uri: &str, rule: Rule) -> AuditRefused
    ensures { IsRefusal uri.now rule result }
{
    match String::from_str(alloc, uri) {
        Ok(uri) => AuditRefused::Refused { uri, rule },
        Err(_) => AuditRefused::Memory,
    }
}

/// What is there, where the rule wants something to be.
pub fn found<T>(alloc: Global, uri: &str, rule: Rule, there: Option<T>) -> Result<T, AuditRefused>
    ensures { Tells (λ x. x) (found uri.now rule there) result }
{
    match there {
        Some(x) => Ok(x),
        None => Err(refusal(alloc, uri, rule)),
    }
}

/// Each rule is kept, or the first that isn't refuses the object at the URI.
pub fn keep_all(alloc: Global, uri: &str, tests: &[(Rule, bool)]) -> Result<(), AuditRefused>
    ensures { Tells (λ x. x) (kept uri.now tests.now) result }
{
    for test in tests {
        if !test.1 {
            return Err(refusal(alloc, uri, test.0));
        }
    }
    Ok(())
}
