//! The files of an export (RFC 8182 section 3.3.2, RFC 8630).

ghost use Rattle.std.specs.Prelude.{◌≡◌, ◌≢◌, ◌++◌, List, [], ◌∷◌, map, option_map, IfOk, OnOk};
ghost use Rattle.std.specs.String.{string_bytes};
ghost use Rattle.key_ids.specs.Uris.{anchor_uri};
ghost use Rattle.pub_set.specs.Objects.{content_at};
ghost use Rattle.key_roll.specs.declared.rows.Role.TheVariants.{Current};
ghost use Rattle.issue_plan.specs.Keys as spec;
ghost use Rattle.outlet_api.specs.declared.exports.OutFile.{OutFile};
ghost use Rattle.outlet_api.specs.Calls.{put};
ghost use Rattle.outlet_api.specs.Exports.{put_of, calls_of};
ghost use Rattle.rrdp_state.specs.Editions.{Edition, objects_of};
ghost use Rattle.rrdp_state.specs.Exported.{Repository, export_calls};
ghost use Rattle.rrdp_state.specs.State.{StandsFor};
ghost use Rattle.press_core.specs.Exports.{anchor_locator, anchor_puts, certificate_path, ended_by, file_put};
ghost use Rattle.press_core.specs.Exports.{locator_for, locator_path, puts_all};

use crate::last_export::LastExport;
use editions::PublishedState;
use key_ids::Site;
use key_roll::{KeyRow, Role, is_role};
use outlet_api::{OutFile, OutFiles};
use rrdp_state::Rrdp;
use rrdp_text::locator_text;
use std::alloc::{AllocError, Global};

const CERTIFICATE: &str = "ta.cer";

const LOCATOR: &str = "ta.tal";

/// Whether every named delta is put, where the last export ended so and this one is of that serial.
pub fn puts_all(last: LastExport, serial: u64) -> bool
    ensures { result ≡ puts_all last serial }
{
    match last {
        LastExport::NoExport => true,
        LastExport::Failed => true,
        LastExport::Done { serial: exported } => exported.saturating_add(1) < serial,
    }
}

/// How an export of that serial ended.
pub fn ended_by<T, E>(ended: &Result<T, E>, serial: u64) -> LastExport
    ensures { result ≡ ended_by ended.now serial }
{
    match ended {
        Ok(_) => LastExport::Done { serial },
        Err(_) => LastExport::Failed,
    }
}

/// The files of RRDP, with those of the trust anchor just before the notification. The snapshot is written of the
/// set that stands.
pub fn export_files(
    alloc: Global,
    rrdp: &Rrdp,
    site: &Site,
    at: &PublishedState,
    all: bool,
) -> Result<OutFiles, AllocError>
    ensures { IfOk result (λ files. (repository : Repository) (editions : List Edition)
        → StandsFor repository editions rrdp.now → at.now.set ≡ objects_of editions → editions ≢ []
        → calls_of files ≡ export_calls repository editions all (anchor_puts site.now at.now)) }
{
    let mut files = rrdp.files(alloc, &at.parts().set, all)?;
    let beside = anchor_files(alloc, site, at)?;
    put_before_last(&mut files.puts, beside)?;
    Ok(files)
}

/// Puts these just before the last one, if there is one.
fn put_before_last(puts: &mut Vec<OutFile>, mut beside: Vec<OutFile>) -> Result<(), AllocError>
    ensures { OnOk result ((first : List OutFile) (last : OutFile) → puts.old.items ≡ first ++ last ∷ []
        → puts.new.items ≡ (first ++ beside.items) ++ last ∷ []) }
{
    let Some(last) = puts.pop() else {
        return Ok(());
    };
    puts.append(&mut beside)?;
    puts.push(last)?;
    Ok(())
}

/// The anchor's certificate and the locator of its current key, as far as they stand.
fn anchor_files(alloc: Global, site: &Site, at: &PublishedState) -> Result<Vec<OutFile>, AllocError>
    ensures { IfOk result (λ files. map put_of files.items ≡ anchor_puts site.now at.now) }
{
    let mut files = Vec::new(alloc);
    push_certificate(alloc, &mut files, site, at)?;
    push_locator(alloc, &mut files, site, at)?;
    Ok(files)
}

fn push_certificate(
    alloc: Global,
    files: &mut Vec<OutFile>,
    site: &Site,
    at: &PublishedState,
) -> Result<(), AllocError>
    ensures { OnOk result (map put_of files.new.items
        ≡ map put_of files.old.items ++ file_put certificate_path (content_at at.now.set (anchor_uri site.now))) }
{
    let uri = site.anchor_uri(alloc)?;
    if let Some(bytes) = at.parts().set.get(uri.as_str()) {
        files.push(out_file(alloc, CERTIFICATE, bytes)?)?;
    }
    Ok(())
}

fn push_locator(
    alloc: Global,
    files: &mut Vec<OutFile>,
    site: &Site,
    at: &PublishedState,
) -> Result<(), AllocError>
    ensures { OnOk result (map put_of files.new.items ≡ map put_of files.old.items
        ++ file_put locator_path (option_map (locator_for site.now) (spec.row_of at.now.rows 0 Current))) }
{
    if let Some(row) = anchor_row(at.parts().rows.as_slice()) {
        let locator = anchor_locator(alloc, site, &row.key.bytes)?;
        files.push(out_file(alloc, LOCATOR, locator.as_str().as_bytes())?)?;
    }
    Ok(())
}

/// The current key of the trust anchor.
fn anchor_row(rows: &[KeyRow]) -> Option<&KeyRow>
    ensures { option_map (λ row. row.now) result ≡ spec.row_of rows.now 0 Current }
{
    rows.iter()
        .find(|row| row.desk == 0 && is_role(row.role, Role::Current))
}

fn out_file(alloc: Global, path: &str, bytes: &[u8]) -> Result<OutFile, AllocError>
    ensures { IfOk result (λ file. put_of file ≡ put path.now bytes.now) }
{
    Ok(OutFile {
        path: String::from_str(alloc, path)?,
        bytes: Vec::from_slice(alloc, bytes)?,
    })
}

/// The locator of the anchor's key, with the URIs of its certificate (RFC 8630 section 2.2).
fn anchor_locator(alloc: Global, site: &Site, key: &[u8]) -> Result<String, AllocError>
    ensures { IfOk result (λ text. string_bytes text ≡ anchor_locator site.now key.now) }
{
    let mut https = String::from_str(alloc, site.rrdp())?;
    https.push_str(CERTIFICATE)?;
    let mut uris = Vec::with_capacity(alloc, 2)?;
    uris.push(site.anchor_uri(alloc)?)?;
    uris.push(https)?;
    locator_text(alloc, &uris, key)
}
