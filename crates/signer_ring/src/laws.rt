//! Laws of the definitions that the contracts cite.

ghost use Rattle.std.specs.Prelude.{List};
ghost use Rattle.signer_api.specs.State.{SignerState};
ghost use Rattle.signer_ring.specs.Calls.{Call, after_calls, IsVouched};

/// What a signer vouches for because of a call, it vouches for after further calls.
pub fn vouched_stays()
    ensures { (ring : List SignerState) (call : Call) (calls : List Call)
        → IsVouched ring call → IsVouched (after_calls ring calls) call }
{}
