//! The work of an edition as a text.

use anyhow::Result;
use key_ids::KeyId;
use key_roll::{CertWork, KeyName, NewKey, RoaWork, Role, RoleWork, Work};
use std::alloc::Global;
use std::str;

/// The moment, then all parts of the work, each in its order.
pub fn work_text(alloc: Global, work: &Work) -> Result<String> {
    let mut text = String::new(alloc);
    write!(text, "at {}", work.moment)?;
    for key in work.new_keys.as_slice() {
        push_new_key(&mut text, key)?;
    }
    for role in work.roles.as_slice() {
        push_role(&mut text, role)?;
    }
    for certificate in work.certs.as_slice() {
        push_certificate(&mut text, alloc, certificate)?;
    }
    for roa in work.roas.as_slice() {
        push_roa(&mut text, alloc, roa)?;
    }
    push_rest(&mut text, work)?;
    Ok(text)
}

fn push_rest(text: &mut String, work: &Work) -> Result<()> {
    for point in work.points.as_slice() {
        text.push_str("\tpoint ")?;
        push_name(text, &point.key)?;
    }
    for uri in work.withdrawn.as_slice() {
        write!(text, "\twithdrawn {}", uri.as_str())?;
    }
    for id in work.dropped.as_slice() {
        text.push_str("\tdropped ")?;
        push_id(text, id)?;
    }
    Ok(())
}

fn push_id(text: &mut String, id: &KeyId) -> Result<()> {
    let digits = id.hex();
    text.push_str(str::from_utf8(&digits)?)?;
    Ok(())
}

fn push_name(text: &mut String, name: &KeyName) -> Result<()> {
    match name {
        KeyName::Live { id } => push_id(text, id),
        KeyName::Fresh { desk } => {
            write!(text, "fresh {desk}")?;
            Ok(())
        }
    }
}

fn role_name(role: Role) -> &'static str {
    match role {
        Role::New => "New",
        Role::Current => "Current",
        Role::Old => "Old",
    }
}

fn push_new_key(text: &mut String, key: &NewKey) -> Result<()> {
    let role = role_name(key.role);
    write!(
        text,
        "\tnew {} signer {} {role} {} {}",
        key.desk, key.signer, key.since, key.done
    )?;
    Ok(())
}

fn push_role(text: &mut String, turned: &RoleWork) -> Result<()> {
    text.push_str("\trole ")?;
    push_id(text, &turned.key)?;
    let role = role_name(turned.role);
    write!(text, " {role} {} {}", turned.since, turned.done)?;
    Ok(())
}

fn push_certificate(text: &mut String, alloc: Global, certificate: &CertWork) -> Result<()> {
    text.push_str("\tcertificate ")?;
    push_name(text, &certificate.subject)?;
    text.push_str(" by ")?;
    push_name(text, &certificate.issuer)?;
    let held = &certificate.held;
    write!(text, " ({})", held.asn.text(alloc)?)?;
    write!(text, " ({})", held.v4.text(alloc)?)?;
    write!(text, " ({})", held.v6.text(alloc)?)?;
    Ok(())
}

fn push_roa(text: &mut String, alloc: Global, roa: &RoaWork) -> Result<()> {
    write!(text, "\troa {} by ", roa.origin.text(alloc)?)?;
    push_name(text, &roa.issuer)
}
