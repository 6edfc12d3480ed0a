//! What follows of a session's replies.
ghost use Rattle.std.specs.Prelude.{ℕ};
ghost use Rattle.line_loop.specs.declared.session.SessionEnd.{SessionEnd};
ghost use Rattle.session_lines.specs.Replies.{SessionState};
ghost use Rattle.session_lines.specs.Sessions.{Streams, Converses};
ghost use Rattle.session_lines.specs.Own.{SessionMakes};

use disk_api::Disk;
use line_loop::{Sink, Source};
use outlet_api::Outlet;

/// What a session makes is the commands that its replies say are accepted, in their order and at these places; each other line is no
/// command, or refused. Only where the sink failed or found no memory it is at most one more, that of the last line.
pub fn sessions_make_what_is_accepted<D: Disk, O: Outlet, S: Source, K: Sink>()
    ensures { (signers : ℕ) (old new : Streams S K) (end : SessionEnd) (begun ended : SessionState)
        (is : Converses O D.Disk signers S.Source K.Sink old new end begun ended) → SessionMakes end is.given is.written begun.pass.seats ended.pass.seats }
{}
