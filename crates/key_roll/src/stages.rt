//! The stages of a key rollover (RFC 6489 section 2).

ghost use Rattle.std.specs.Prelude.{◌≡◌, ◌+◌, ◌↔◌, nat_le, IsTrue, if◌then◌else◌};
ghost use Rattle.key_roll.specs.Stages as spec;
ghost use Rattle.key_roll.specs.Stages.{staging_period, step_of, since_of, MayActivate};

/// Where an authority's keys stand in a rollover (RFC 6489 section 2).
#[derive(Clone, Copy, Debug, PartialEq, Eq)]
pub enum Stage {
    /// It has a current key alone.
    Steady,
    /// A new key, made at that moment, waits beside the current one. In seconds since 1970.
    Staged { since: u64 },
    /// The new key has become the current one, and the one before it is old.
    Retiring,
}

/// What an edition makes of an authority's keys.
#[derive(Clone, Copy, Debug, PartialEq, Eq)]
pub struct StepEnd {
    /// The stage in the edition.
    pub stage: Stage,
    /// How many of the rollovers that the authority was told to begin are done then.
    pub done: u32,
    /// Whether a new key is made.
    pub made: bool,
    /// Whether the new key becomes the current one, and the current one old.
    pub activated: bool,
    /// Whether the old key is dropped.
    pub dropped: bool,
}

/// How long a new key stands beside the current one at least (RFC 6489 section 2), in seconds.
const STAGING_PERIOD: u64 = 86_400;

impl Stage {
    /// The moment at which the new key was made, in seconds since 1970, and 0 where none waits.
    pub fn since(self) -> u64
        ensures { result ≡ since_of self }
    {
        match self {
            Stage::Staged { since } => since,
            Stage::Steady | Stage::Retiring => 0,
        }
    }
}

/// What an edition at the moment makes of an authority's keys (RFC 6489 section 2). Each edition takes
/// one step.
///
/// The authority was told to begin `inits` rollovers and to activate `activates`, and `done` are done.
/// `moment` is in seconds since 1970.
pub fn step(stage: Stage, inits: u32, activates: u32, done: u32, moment: u64) -> StepEnd
    ensures table { result ≡ step_of stage inits activates done moment }

    // A new key takes the place of the current one exactly where it may.
    ensures activated { IsTrue result.activated ↔ MayActivate stage activates done moment }

    // One more is done where it does, and as many as before everywhere else.
    ensures done { result.done ≡ done + (if result.activated then 1 else 0) }
{
    match stage {
        Stage::Steady if done < inits => StepEnd {
            made: true,
            ..stays(Stage::Staged { since: moment }, done)
        },
        Stage::Staged { since } if done < activates && is_over(since, moment) => StepEnd {
            activated: true,
            ..stays(Stage::Retiring, done + 1)
        },
        Stage::Steady | Stage::Staged { .. } => stays(stage, done),
        Stage::Retiring => StepEnd {
            dropped: true,
            ..stays(Stage::Steady, done)
        },
    }
}

// Whether the staging period of a key that was made at that moment is over.
fn is_over(since: u64, moment: u64) -> bool
    ensures { result ≡ nat_le (since + staging_period) moment }
{
    STAGING_PERIOD <= moment && since <= moment - STAGING_PERIOD
}

fn stays(stage: Stage, done: u32) -> StepEnd
    ensures { result ≡ spec.stays stage done }
{
    StepEnd {
        stage,
        done,
        made: false,
        activated: false,
        dropped: false,
    }
}
