//! The devices of a run.

use disk_api::Disk;
use outlet_api::Outlet;
use signer_api::Signer;

/// The devices of a run beside its sessions: the desks' disks and the signers, each in their order, the
/// press's disk, and the outlet.
#[derive(Drop)]
pub struct Ends<D: Disk, G: Signer, O: Outlet> {
    pub desks: Vec<D>,
    pub press: D,
    pub signers: Vec<G>,
    pub outlet: O,
}
