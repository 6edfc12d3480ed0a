//! Why no edition is prepared.

ghost use Rattle.std.specs.Prelude.{◌≡◌};
ghost use Rattle.press_core.specs.declared.fault.PressFault.TheVariants.{Memory};
ghost use Rattle.press_core.specs.inner.Ready.{fault_of};

use disk_api::Disk;
use issue_keys::MakeFault;
use key_ids::KeyId;
use std::alloc::AllocError;
use std::marker::{Model, PhantomData};
use thiserror::Error;

/// The code of a refusal, and the clock of the call that met it, in seconds since 1970: what the press over a journal
/// makes its [`Met`] of.
#[derive(Debug, Drop)]
pub struct MetAt {
    code: u32,
    clock: u64,
}

impl Model for MetAt {
    ghost use Rattle.press_core.specs.Met.{MetValue};

    ghost Value = { MetValue };

    ghost view = { λ met. record { code = met.code; clock = met.clock } };
}

impl MetAt {
    /// At a refusal of that code, at that clock.
    pub(crate) fn new(code: u32, now: u64) -> MetAt
        ensures { result ≡ record { code = code; clock = now } }
    {
        MetAt { code, clock: now }
    }
}

/// That a press over a disk of this type refused an edition: the code of the refusal, and the clock of the call that
/// met it, in seconds since 1970. Such a press alone makes one, in that call, and nobody copies it.
#[derive(Drop)]
pub struct Met<D: Disk> {
    at: MetAt,
    disk: PhantomData<D>,
}

impl<D: Disk> Model for Met<D> {
    ghost use Rattle.press_core.specs.Met.{MetValue};

    ghost Value = { MetValue };

    ghost view = { λ met. met.at };
}

impl<D: Disk> Met<D> {
    /// What was met by a press over such a disk.
    pub(crate) fn of(at: MetAt) -> Self
        ensures { result ≡ at }
    {
        Met {
            at,
            disk: PhantomData,
        }
    }

    /// The code of the refusal.
    pub fn code(&self) -> u32
        ensures { result ≡ self.now.code }
    {
        self.at.code
    }

    /// The clock of the call, in seconds since 1970.
    pub fn clock(&self) -> u64
        ensures { result ≡ self.now.clock }
    {
        self.at.clock
    }
}

/// Why no edition is prepared. `now` is the clock of the call, in seconds since 1970.
#[derive(Debug, Drop, Error)]
pub enum PressFault {
    /// The clock is before the year 2000, or the edition's moment behind the year 9998.
    #[error("the clock {now} is out of range")]
    ClockRange { now: u64, met: MetAt },
    /// The serial, or the number or the next serial of a live key, is 2^62 or more.
    #[error("the number {value} is at its end")]
    SerialEnd { value: u64, met: MetAt },
    /// There is nothing to publish behind the edition with that serial.
    #[error("nothing to publish behind {serial}")]
    Nothing { serial: u64, met: MetAt },
    /// A call of that signer failed.
    #[error("signer {signer} failed")]
    SignerFault { signer: u32, met: MetAt },
    /// A key that was made has the identifier of a live key, or of another one that was made.
    #[error("two keys have one identifier")]
    KeyClash { id: KeyId, met: MetAt },
    #[error("out of memory")]
    Memory,
}

impl PressFault {
    /// What a press answers where the making stopped, at that clock.
    pub(crate) fn of(fault: MakeFault, now: u64) -> PressFault
        ensures { result ≡ fault_of fault now }
    {
        match fault {
            MakeFault::SignerFault { signer } => PressFault::SignerFault {
                signer,
                met: MetAt::new(27, now),
            },
            MakeFault::KeyClash { id } => PressFault::KeyClash {
                id,
                met: MetAt::new(28, now),
            },
            MakeFault::Memory => PressFault::Memory,
        }
    }
}

impl From<AllocError> for PressFault {
    ghost from_gives = { λ _ fault. fault ≡ Memory };

    fn from(_: AllocError) -> Self {
        PressFault::Memory
    }
}
