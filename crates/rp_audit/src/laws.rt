//! Laws of what the signers of a ring vouch for.

ghost use Rattle.std.specs.Prelude.{◌≡◌, ℕ, true, List};
ghost use Rattle.signer_api.specs.State.{SignerState};
ghost use Rattle.signer_ring.specs.Ring.{AllTell, Vouched, Keeps};
ghost use Rattle.rp_rules.specs.Certificates.{VouchesMore};
ghost use Rattle.rp_audit.specs.Vouching.{vouched_in};

/// A signature for which some signer vouches is vouched. Where all tell, no other is.
pub fn rings_vouch_by_their_signers()
    ensures some { (signers : List SignerState) (key digest signature : List ℕ)
        → Vouched signers key digest signature → vouched_in signers key digest signature ≡ true }
    ensures all { (signers : List SignerState) (key digest signature : List ℕ)
        → AllTell signers → vouched_in signers key digest signature ≡ true
        → Vouched signers key digest signature }
{}

/// Where all told, what was vouched stays vouched. So what was sound stays sound.
pub fn rings_go_on_vouching()
    ensures { (old new : List SignerState)
        → AllTell old → Keeps old new → VouchesMore (vouched_in old) (vouched_in new) }
{}
