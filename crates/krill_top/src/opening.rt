//! The desks of a run, opened and closed in their order.

ghost use Rattle.std.specs.Prelude.{◌≡◌, ◌≤◌, ◌+◌, ◌<◌, ◌++◌, ◌∷◌, ◌^◌, [], List, length, vec_len, vec_capacity, IfOk, IfErr, OnOk};
ghost use Rattle.desk_core.specs.View.{View};
ghost use Rattle.krill_top.specs.inner.Opened.{AreOpened, AreClosed, opening_fault_of};
ghost use Rattle.krill_top.specs.RunDisks.{AreUntouchedDesks, IsOpeningRefused};

use crate::faults::OpenFault;
use crate::fronts::{put_in_front, take_first};
use desk_core::{Desk, DeskOpenFault, DeskRefused};
use disk_api::Disk;
use std::alloc::Global;

/// The opened desks in their order, and the emptied list of their disks, in which there is room for
/// them.
#[derive(Drop)]
pub(crate) struct Opened<D: Disk> {
    pub(crate) desks: Vec<Desk<D>>,
    pub(crate) disks: Vec<D>,
}

/// The disks in their order, not all of which could be opened, and why.
#[derive(Drop)]
pub(crate) struct OpeningRefused<D: Disk> {
    pub(crate) disks: Vec<D>,
    pub(crate) fault: OpenFault,
}

/// What is wrong with the disk of that number.
fn fault_of(device: u32, fault: DeskOpenFault) -> OpenFault
    ensures { result ≡ opening_fault_of device fault }
{
    match fault {
        DeskOpenFault::Damaged { at } => OpenFault::Damaged { device, at },
        DeskOpenFault::BadRecord { at } => OpenFault::BadRecord { device, at },
        DeskOpenFault::DiskFault => OpenFault::DiskFault { device },
        DeskOpenFault::Memory => OpenFault::Memory,
    }
}

/// Opens each disk as the desk of its place. At the first that isn't opened the desks before it are
/// closed again.
pub(crate) fn open_desks<D: Disk>(
    alloc: Global,
    disks: Vec<D>,
) -> Result<Opened<D>, OpeningRefused<D>>
    requires { length disks.items < 2 ^ 32 }
    ensures opened { IfOk result (λ opened. AreOpened D.Disk 0 disks.items opened.desks.items) }
    ensures empty { IfOk result (λ opened. opened.disks.items ≡ []) }
    ensures room { IfOk result (λ opened. vec_len opened.desks ≤ vec_capacity opened.disks) }
    ensures refused { IfErr result (λ refused. IsOpeningRefused D.Disk refused.fault disks.items refused.disks.items) }
{
    let mut disks = disks;
    let Ok(mut desks) = Vec::with_capacity(alloc, disks.len()) else {
        let fault = OpenFault::Memory;
        return Err(OpeningRefused { disks, fault });
    };
    for number in 0..disks.len() as u32 {
        match Desk::open(alloc, number, take_first(&mut disks)) {
            Ok(desk) => desks.push_reserved(desk),
            Err(DeskRefused { disk, fault }) => {
                put_in_front(&mut disks, disk);
                close_in_front(&mut disks, desks);
                let fault = fault_of(number, fault);
                return Err(OpeningRefused { disks, fault });
            }
        }
    }
    Ok(Opened { desks, disks })
}

/// Closes the desks, and hands back their disks in their order.
pub(crate) fn close_desks<D: Disk>(opened: Opened<D>) -> Vec<D>
    requires empty { opened.disks.items ≡ [] }
    requires room { vec_len opened.desks ≤ vec_capacity opened.disks }
    ensures { AreClosed D.Disk opened.desks.items result.items }
{
    let Opened { desks, mut disks } = opened;
    close_in_front(&mut disks, desks);
    disks
}

// Closes the desks, the last first, and puts their disks in front of the others.
fn close_in_front<D: Disk>(disks: &mut Vec<D>, desks: Vec<Desk<D>>)
    requires { vec_len desks + vec_len disks.old ≤ vec_capacity disks.old }
    ensures { (closed : List D) × AreClosed D.Disk desks.items closed × (disks.new.items ≡ closed ++ disks.old.items) }
{
    let mut desks = desks;
    while let Some(desk) = desks.pop() {
        put_in_front(disks, desk.close());
    }
}
