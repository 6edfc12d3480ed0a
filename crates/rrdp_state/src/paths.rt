//! The paths of files. `notification.xml`, and `SESSION/SERIAL/snapshot.xml` and `delta.xml`.

ghost use Rattle.std.specs.Prelude.{◌≡◌, ◌++◌, IfOk, OnOk, decimal};
ghost use Rattle.std.specs.String.{string_bytes};
ghost use Rattle.rrdp_state.specs.Paths.{path_in, snapshot_path, delta_path, notification_path};

use itoa::Buffer;
use std::alloc::{AllocError, Global};
use uuid::Uuid;

pub(crate) const NOTIFICATION: &str = "notification.xml";

#[tactic(auto, using(std::proofs::Common::append_assoc))]
/// The path of a serial's file of that name.
fn path_in(alloc: Global, session: &Uuid, serial: u64, name: &str) -> Result<String, AllocError>
    ensures { IfOk result (λ path. string_bytes path ≡ path_in session.now serial name.now) }
{
    let mut path = String::new(alloc);
    let mut buffer = Uuid::encode_buffer();
    path.push_str(session.hyphenated().encode_lower(&mut buffer))?;
    path.push_str("/")?;
    path.push_str(Buffer::new().format(serial))?;
    path.push_str(name)?;
    Ok(path)
}

/// The path of the snapshot of a serial.
pub(crate) fn snapshot_path(
    alloc: Global,
    session: &Uuid,
    serial: u64,
) -> Result<String, AllocError>
    ensures { IfOk result (λ path. string_bytes path ≡ snapshot_path session.now serial) }
{
    path_in(alloc, session, serial, "/snapshot.xml")
}

/// The path of the delta that leads to a serial.
pub(crate) fn delta_path(alloc: Global, session: &Uuid, serial: u64) -> Result<String, AllocError>
    ensures { IfOk result (λ path. string_bytes path ≡ delta_path session.now serial) }
{
    path_in(alloc, session, serial, "/delta.xml")
}
