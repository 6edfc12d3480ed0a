//! Writers of the resources (RFC 6487 sections 4.8.10 and 4.8.11).

ghost use Rattle.std.specs.Prelude.{◌≡◌, ◌++◌, Some, None, OnOk};
ghost use Rattle.der.specs.Forms.{spelled_some};
ghost use Rattle.res_sets.specs.declared.numbers.Family.TheVariants.{Asn, V4, V6};
ghost use Rattle.res_ext.specs.Views.{set_view};
ghost use Rattle.cert_obj.specs.Values.{sets_of, held_value};
ghost use Rattle.cert_obj.specs.Holdings.{addresses, numbers, listed_addresses, listed_numbers, held as held_form};

use crate::holdings::is_empty;
use crate::values::Held;
use der::tags::{BOOLEAN, OCTET_STRING, SEQUENCE};
use object_parts::identifiers::{AS_IDENTIFIERS, IP_BLOCKS};
use object_parts::push_identifier;
use res_ext::{push_as_identifiers, push_inherited_as, push_inherited_ip, push_ip_blocks};
use res_sets::{Ranges, Resources};
use std::alloc::{AllocError, Global};

/// Appends IP address blocks.
#[tactic(auto, using(std::proofs::Common::append_assoc))]
fn push_addresses(
    alloc: Global,
    out: &mut Vec<u8>,
    v4: &Ranges,
    v6: &Ranges,
) -> Result<(), AllocError>
    requires v4 { v4.now.family ≡ V4 }
    requires v6 { v6.now.family ≡ V6 }
    ensures { OnOk result (out.new.items ≡ out.old.items
        ++ addresses.spelling (Some (set_view v4.now, set_view v6.now))) }
{
    let from = out.len();
    push_identifier(alloc, out, &IP_BLOCKS)?;
    der::element(alloc, out, BOOLEAN, &[255])?;
    let value = out.len();
    push_ip_blocks(alloc, out, v4, v6)?;
    der::enclose(alloc, out, value, OCTET_STRING)?;
    der::enclose(alloc, out, from, SEQUENCE)
}

/// Appends IP address blocks, or nothing where there is no address.
fn push_listed_addresses(
    alloc: Global,
    out: &mut Vec<u8>,
    v4: &Ranges,
    v6: &Ranges,
) -> Result<(), AllocError>
    requires v4 { v4.now.family ≡ V4 }
    requires v6 { v6.now.family ≡ V6 }
    ensures { OnOk result (out.new.items ≡ out.old.items
        ++ spelled_some addresses.spelling (listed_addresses (set_view v4.now) (set_view v6.now))) }
{
    if is_empty(v4) && is_empty(v6) {
        Ok(())
    } else {
        push_addresses(alloc, out, v4, v6)
    }
}

/// Appends AS identifiers.
#[tactic(auto, using(std::proofs::Common::append_assoc))]
fn push_numbers(alloc: Global, out: &mut Vec<u8>, asn: &Ranges) -> Result<(), AllocError>
    requires { asn.now.family ≡ Asn }
    ensures { OnOk result (out.new.items ≡ out.old.items
        ++ numbers.spelling (Some (set_view asn.now))) }
{
    let from = out.len();
    push_identifier(alloc, out, &AS_IDENTIFIERS)?;
    der::element(alloc, out, BOOLEAN, &[255])?;
    let value = out.len();
    push_as_identifiers(alloc, out, asn)?;
    der::enclose(alloc, out, value, OCTET_STRING)?;
    der::enclose(alloc, out, from, SEQUENCE)
}

/// Appends AS identifiers, or nothing where there is no number.
fn push_listed_numbers(alloc: Global, out: &mut Vec<u8>, asn: &Ranges) -> Result<(), AllocError>
    requires { asn.now.family ≡ Asn }
    ensures { OnOk result (out.new.items ≡ out.old.items
        ++ spelled_some numbers.spelling (listed_numbers (set_view asn.now))) }
{
    if is_empty(asn) {
        Ok(())
    } else {
        push_numbers(alloc, out, asn)
    }
}

/// Appends that the addresses are the issuer's.
#[tactic(auto, using(std::proofs::Common::append_assoc))]
fn push_inherited_addresses(alloc: Global, out: &mut Vec<u8>) -> Result<(), AllocError>
    ensures { OnOk result (out.new.items ≡ out.old.items ++ addresses.spelling None) }
{
    let from = out.len();
    push_identifier(alloc, out, &IP_BLOCKS)?;
    der::element(alloc, out, BOOLEAN, &[255])?;
    let value = out.len();
    push_inherited_ip(alloc, out)?;
    der::enclose(alloc, out, value, OCTET_STRING)?;
    der::enclose(alloc, out, from, SEQUENCE)
}

/// Appends that the AS numbers are the issuer's.
#[tactic(auto, using(std::proofs::Common::append_assoc))]
fn push_inherited_numbers(alloc: Global, out: &mut Vec<u8>) -> Result<(), AllocError>
    ensures { OnOk result (out.new.items ≡ out.old.items ++ numbers.spelling None) }
{
    let from = out.len();
    push_identifier(alloc, out, &AS_IDENTIFIERS)?;
    der::element(alloc, out, BOOLEAN, &[255])?;
    let value = out.len();
    push_inherited_as(alloc, out)?;
    der::enclose(alloc, out, value, OCTET_STRING)?;
    der::enclose(alloc, out, from, SEQUENCE)
}

/// Appends that all resources are the issuer's.
#[tactic(auto, using(std::proofs::Common::append_assoc, crate::specs::laws::HoldingLaws::nothing_behind), unfolding(crate::specs::Holdings::held))]
fn push_inherited(alloc: Global, out: &mut Vec<u8>) -> Result<(), AllocError>
    ensures { OnOk result (out.new.items ≡ out.old.items ++ held_form.spelling None) }
{
    push_inherited_addresses(alloc, out)?;
    push_inherited_numbers(alloc, out)
}

/// Appends resources.
#[tactic(auto, using(std::proofs::Common::append_assoc, crate::specs::laws::HoldingLaws::nothing_behind), unfolding(crate::specs::Holdings::held))]
fn push_sets(alloc: Global, out: &mut Vec<u8>, resources: &Resources) -> Result<(), AllocError>
    ensures { OnOk result (out.new.items ≡ out.old.items
        ++ held_form.spelling (Some (sets_of resources.now))) }
{
    push_listed_addresses(alloc, out, &resources.v4, &resources.v6)?;
    push_listed_numbers(alloc, out, &resources.asn)
}

/// Appends the extensions of the resources (RFC 6487 sections 4.8.10 and 4.8.11).
pub fn push_held(alloc: Global, out: &mut Vec<u8>, held: &Held) -> Result<(), AllocError>
    ensures { OnOk result (out.new.items ≡ out.old.items
        ++ held_form.spelling (held_value held.now)) }
{
    match held {
        Held::Inherit => push_inherited(alloc, out),
        Held::Set { resources } => push_sets(alloc, out, resources),
    }
}
