//! Going on over what was loaded, where the audited set yields what is owed and the keys' rows agree with the points that
//! were found.

ghost use Rattle.std.specs.Prelude.{◌≡◌, IfOk, IfErr};
ghost use Rattle.press_core.specs.Resuming.{IsAudited, AreFirsts, GoesOn, AreAgreed, IsResumeFault};

use crate::loading::Loaded;
use crate::opening::{current_state, is_by_name};
use crate::press::Press;
use crate::stored::StoredPress;
use disk_api::Disk;
use editions::{
    Gathered, certificates_name_their_folders, editions_follow_one_another, steps_come_one_by_one,
};
use key_ids::KeyId;
use rp_rules::Audited;
use signer_api::Signer;
use signer_ring::Ring;
use std::alloc::{AllocError, Global};
use thiserror::Error;

/// Why a press doesn't go on.
#[derive(Debug, Drop, Error)]
pub enum ResumeFault {
    /// The ROA at that URI is owed and not yielded, or yielded and not owed. It is the least such URI.
    #[error("origins differ at {uri}")]
    OriginsDiffer {
        uri: String,
    },
    /// A field of a key's row doesn't agree with what was found: 0 the point's number, 1 its thisUpdate in seconds
    /// since 1970, 2 the next serial, which is to be above the greatest that was found or that the CRL lists, 3 the
    /// serials of the CRL that differ first. `kept` is the row's and `found` the point's; 0 stands where one of them is missing.
    #[error("a row differs in field {field}: {kept} kept, {found} found")]
    RowMismatch {
        key: KeyId,
        field: u32,
        kept: u64,
        found: u64,
    },
    #[error("out of memory")]
    Memory,
}

impl From<AllocError> for ResumeFault {
    ghost use Rattle.press_core.specs.declared.resume.ResumeFault.TheVariants as why;

    ghost from_gives = { λ _ fault. fault ≡ why.Memory };

    fn from(_: AllocError) -> ResumeFault {
        ResumeFault::Memory
    }
}

/// The disk and the signers, handed back, and why the press doesn't go on.
#[derive(Drop)]
pub struct ResumeRefused<D: Disk, S: Signer> {
    pub disk: D,
    pub ring: Ring<S>,
    pub fault: ResumeFault,
}

impl<D: Disk, S: Signer> StoredPress<D, S> {
    /// Goes on behind what was loaded, with these signers.
    ///
    /// `audited` is what an audit of the set found that was loaded, at its moment, below its trust anchor's key, by these
    /// signers, and None where there is no edition. `firsts` are the commands up to the cut.
    ///
    /// Refused in this order: `OriginsDiffer`, `RowMismatch`. `Memory` may come at any time. A row is compared with each
    /// point of its key, the rows by desk and role; behind them the first point without a row is told.
    pub fn resume(
        alloc: Global,
        loaded: Loaded<D>,
        audited: Option<Audited>,
        firsts: Vec<Gathered>,
        ring: Ring<S>,
    ) -> Result<StoredPress<D, S>, ResumeRefused<D, S>>
        requires audited { IsAudited loaded ring audited }
        requires firsts { AreFirsts loaded.cut firsts.items }

        // What stands is what was loaded. Where the editions that were found are steps, the press stands for them.
        ensures goes_on { IfOk result (GoesOn loaded firsts.items ring) }

        // Whatever the disk held, the last set is sound at its moment, yields what is owed, and agrees with the rows.
        ensures agreed { IfOk result (λ stored. AreAgreed loaded ring stored audited) }

        ensures refused { IfErr result (λ e. IsResumeFault loaded firsts.items audited e.fault) }
        ensures disk { IfErr result (λ e. e.disk ≡ loaded.journal.disk) }
        ensures ring { IfErr result (λ e. e.ring ≡ ring) }
    {
        certificates_name_their_folders();
        editions_follow_one_another();
        steps_come_one_by_one();
        let (journal, store, left, rrdp) = loaded.into_parts();
        match current_state(alloc, &store.site, left, audited, firsts) {
            Ok(at) => {
                let by_name = is_by_name(alloc, &store.site, at.state());
                let press = Press::resumed(alloc, store.site, ring, at, rrdp, by_name);
                Ok(StoredPress::of(press, journal))
            }
            Err(fault) => Err(ResumeRefused {
                disk: journal.close(),
                ring,
                fault,
            }),
        }
    }
}
