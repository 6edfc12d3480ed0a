//! The law of the hashes that the table of what stands tells.

ghost use Rattle.std.specs.Prelude.{List};
ghost use Rattle.signer_api.specs.State.{SignerState};
ghost use Rattle.press_core.specs.PrepareInput.{PrepareInput};
ghost use Rattle.press_core.specs.Next.{NextValue};
ghost use Rattle.press_core.specs.Planned.{IsPrepared};
ghost use Rattle.press_core.specs.Tables.{IsHashed};

/// The table after what is prepared tells the hash of what stands at each URI, where the one before it did.
pub fn prepared_tables_tell_hashes()
    ensures { (start : PrepareInput) (ring : List SignerState) (prepared : NextValue) → IsPrepared start ring prepared
        → IsHashed start.at.set start.at.issued → IsHashed prepared.next.set prepared.next.issued }
{}
