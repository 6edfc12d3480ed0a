// The changes of a disk in memory.
ghost use Rattle.std.specs.Prelude.{◌≡◌, ◌≤◌, length, OnOk, OnErr};
ghost use Rattle.disk_api.specs.Content.{overwritten};

use std::alloc::AllocError;

/// A change of the file, or a sync.
#[derive(Drop)]
pub(crate) enum Step {
    Write { at: usize, bytes: Vec<u8> },
    Cut(usize),
    Sync,
}

/// Writes over the bytes from `at` on, and past their end.
pub(crate) fn overwrite(bytes: &mut Vec<u8>, at: usize, new: &[u8]) -> Result<(), AllocError>
    requires { at ≤ length bytes.old.items }
    ensures ok { OnOk result (bytes.new.items ≡ overwritten at new.now bytes.old.items) }
    ensures err { OnErr result (bytes.new.items ≡ bytes.old.items) }
{
    let over = new.len().min(bytes.len() - at);
    bytes.extend_from_slice(&new[over..])?;
    bytes[at..at + over].copy_from_slice(&new[..over]);
    Ok(())
}
