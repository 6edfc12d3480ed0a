// The word of a fault of a desk's disk: only this crate makes one.
ghost use Rattle.std.specs.Prelude.{◌≡◌, ℕ};
ghost use Rattle.host_calls.specs.Rise.{HasRisen};

use disk_api::Disk;
use gate_journal::Rose;
use std::marker::Model;

/// That the disk under a desk failed: the desk's number, and the word of its journal. It can be
/// neither copied nor made elsewhere, and the journal's word doesn't come out of it.
#[derive(Drop)]
pub struct DeskRose<D: Disk> {
    desk: u32,
    rose: Rose<D>,
}

impl<D: Disk> Model for DeskRose<D> {
    ghost Value = { ℕ × (ℕ × ℕ) };

    ghost view = { λ r. (r.desk, r.rose) };
}

impl<D: Disk> DeskRose<D> {
    pub(crate) fn new(desk: u32, rose: Rose<D>) -> Self
        ensures { result ≡ (desk, rose) }
    {
        DeskRose { desk, rose }
    }

    /// The desk's number. Desks are numbered from 0.
    pub fn desk(&self) -> u32
        ensures { result ≡ self.now.0 }
    {
        self.desk
    }

    /// The disk's count of faults before the call that failed.
    pub fn before(&self) -> u64
        ensures count { result ≡ self.now.1.0 }
        ensures risen { HasRisen self.now.1.0 self.now.1.1 }
    {
        self.rose.before()
    }

    /// The count after it.
    pub fn after(&self) -> u64
        ensures count { result ≡ self.now.1.1 }
        ensures risen { HasRisen self.now.1.0 self.now.1.1 }
    {
        self.rose.after()
    }
}
