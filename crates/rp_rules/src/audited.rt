//! What an audit of a sound set gives (RFC 6487 section 7, RFC 9286 section 6).

use crl_obj::CrlEntry;
use origins::Origin;
use signer_api::PublicKey;
use std::marker::Model;

/// An origin that a ROA authorizes, and the folder of the authority above it (RFC 9582 section 4).
#[derive(Debug, Drop)]
pub struct YieldedOrigin {
    pub folder: String,
    pub origin: Origin,
}

/// A publication point: the manifest and the CRL of a key (RFC 6481 section 2.2).
#[derive(Debug, Drop)]
pub struct AuditedPoint {
    pub key: PublicKey,
    /// The number of both (RFC 5280 section 5.2.3, RFC 9286 section 4.2.1).
    pub number: u64,
    /// When the CRL was made, in seconds since 1970 (RFC 5280 section 5.1.2.4).
    pub this_update: u64,
    /// When the manifest was made, in seconds since 1970 (RFC 9286 section 4.2.1).
    pub manifest_update: u64,
    /// The greatest serial of the certificates that the point lists or holds, and of the anchor's own.
    pub greatest_serial: u64,
    /// The entries of the CRL.
    pub crl: Vec<CrlEntry>,
}

/// What a sound set yields. One is made only of what an audit of some set found to be sound.
#[derive(Debug, Drop)]
pub struct Audited {
    origins: Vec<YieldedOrigin>,
    points: Vec<AuditedPoint>,
    objects: u64,
}

impl Model for Audited {
    ghost use Rattle.rp_rules.specs.Yield.{AuditedValue};
    ghost use Rattle.rp_rules.specs.Views.{yielded_values, point_values};
    ghost use Rattle.rp_rules.specs.Sound.{IsAudit};

    ghost Value = { AuditedValue };

    ghost view = { λ a. record {
      origins = yielded_values a.origins.items;
      points = point_values a.points.items;
      objects = a.objects;
    } };

    ghost invariant = { λ a. IsAudit (record {
      origins = yielded_values a.origins.items;
      points = point_values a.points.items;
      objects = a.objects;
    }) };
}

impl Audited {
    ghost use Rattle.std.specs.Prelude.{◌≡◌};
    ghost use Rattle.rp_rules.specs.Views.{yielded_values, point_values};
    ghost use Rattle.rp_rules.specs.Sound.{IsAudit};

    /// What was found of a sound set. `objects` is how many objects it has.
    pub fn of_sound(origins: Vec<YieldedOrigin>, points: Vec<AuditedPoint>, objects: u64) -> Audited
        requires { IsAudit (record {
          origins = yielded_values origins.items;
          points = point_values points.items;
          objects = objects;
        }) }
        ensures { result ≡ record {
          origins = yielded_values origins.items;
          points = point_values points.items;
          objects = objects;
        } }
    {
        Audited {
            origins,
            points,
            objects,
        }
    }

    /// One for each entry of each ROA, in the order of the walk.
    pub fn origins(&self) -> &[YieldedOrigin]
        ensures { yielded_values result.now ≡ self.now.origins }
    {
        self.origins.as_slice()
    }

    /// One for each authority, in the order of the walk.
    pub fn points(&self) -> &[AuditedPoint]
        ensures { point_values result.now ≡ self.now.points }
    {
        self.points.as_slice()
    }

    /// How many objects the set has.
    pub fn objects(&self) -> u64
        ensures { result ≡ self.now.objects }
    {
        self.objects
    }
}
