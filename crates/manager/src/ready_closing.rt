//! The last edition is exported before there is a lock; and what was made ready comes apart again.
ghost use Rattle.std.specs.Prelude.{◌≡◌, ◌≢◌, ◌≤◌, [], List, map, length, vec_capacity, IfErr, IfSome, OnOk};
ghost use Rattle.editions.specs.Edition.{Edition};
ghost use Rattle.outlet_api.specs.Faults.{IsCauseOf};
ghost use Rattle.press_core.specs.Exports.{IsCoherent, ShowsFiles, ShowsLast};
ghost use Rattle.press_core.specs.Files.{HasFilesOf, repository_of};
ghost use Rattle.press_core.specs.declared.last_export.LastExport.TheVariants.{Done};
ghost use Rattle.manager.specs.Pressing.{exported_as};
ghost use Rattle.manager.specs.Ready.{IsReady, desk_in};

use crate::ready_store::give_back;
use crate::{OpenedStore, ReadyStore};
use desk_core::Desk;
use disk_api::Disk;
use outlet_api::{ExportFault, Outlet};
use press_core::{StoredPress, more_editions_stay_shown};
use signer_api::Signer;
use std::alloc::Global;
use std::sync::Wait;

/// Desks without words, the press and the outlet.
#[derive(Drop)]
pub struct StoreParts<D: Disk, S: Signer, O: Outlet> {
    pub desks: Vec<Desk<D>>,
    pub press: StoredPress<D, S>,
    pub outlet: O,
}

impl<D: Disk, S: Signer, O: Outlet> ReadyStore<D, S, O> {
    /// Brings the last edition to the outlet, if there is one.
    pub fn export_last(&mut self, alloc: Global) -> Result<(), ExportFault<O>>
        ensures desks { self.new.opened.desks ≡ self.old.opened.desks }
        ensures board { self.new.opened.board ≡ self.old.opened.board }
        ensures rest { (self.new.viewers ≡ self.old.viewers) × (self.new.room ≡ self.old.room) }
        ensures press { self.new.opened.press ≡ exported_as self.new.opened.press.press.last_export self.old.opened.press }
        ensures exported { OnOk result (self.old.opened.press.press.at.serial ≢ 0
            → self.new.opened.press.press.last_export ≡ Done self.old.opened.press.press.at.serial) }
        ensures ready { IsReady O.Outlet self.old.opened.desks.items self.old.opened.press self.old.opened.board self.old.opened.outlet
            → IsReady O.Outlet self.new.opened.desks.items self.new.opened.press self.new.opened.board self.new.opened.outlet }
        ensures coherent { (editions : List Edition) → HasFilesOf editions self.old.opened.press.press
            → ShowsLast (ShowsFiles (repository_of self.old.opened.press.press)) editions self.old.opened.press.press.last_export (O.files self.old.opened.outlet)
            → IfSome (O.files self.old.opened.outlet) (IsCoherent (repository_of self.old.opened.press.press) editions)
            → IfSome (O.files self.new.opened.outlet) (IsCoherent (repository_of self.old.opened.press.press) editions) }
        ensures counts { O.fault_count self.old.opened.outlet ≤ O.fault_count self.new.opened.outlet }
        ensures cause { IfErr result (IsCauseOf (O.fault_count self.old.opened.outlet) (O.fault_count self.new.opened.outlet)) }
    {
        more_editions_stay_shown();
        let OpenedStore { press, outlet, .. } = &mut self.opened;
        if press.press().serial() == 0 {
            return Ok(());
        }
        press.export_to(alloc, outlet)
    }

    /// Desks, press and outlet again, without words and board. It takes no memory.
    pub fn into_parts<R: Wait>(self, rt: &R) -> StoreParts<D, S, O>
        requires room { (self.room.items ≡ []) × (length self.opened.desks.items ≤ vec_capacity self.room) }
        ensures desks { result.desks.items ≡ map desk_in self.opened.desks.items }
        ensures press { result.press ≡ self.opened.press }
        ensures outlet { result.outlet ≡ self.opened.outlet }
    {
        let ReadyStore {
            opened: OpenedStore {
                mut desks,
                press,
                board,
                outlet,
            },
            viewers: _,
            mut room,
        } = self;
        board.close(rt);
        desks.reverse();
        give_back(desks, &mut room);
        StoreParts {
            desks: room,
            press,
            outlet,
        }
    }
}
