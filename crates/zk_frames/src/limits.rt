//! How long the payloads of a session may be.
ghost use Rattle.std.specs.Prelude.{◌≤◌};
ghost use Rattle.zk_limits.specs.declared.limits.TheConstants.{LONGEST_INCOMING, LONGEST_OUTGOING};
ghost use Rattle.zk_frames.specs.declared.limits.TheConstants.{HIGHEST_LIMIT};

use zk_limits::{LONGEST_INCOMING, LONGEST_OUTGOING};

/// The most bytes to which a limit may be raised: a frame of such a payload still has a length that four bytes can say.
pub const HIGHEST_LIMIT: usize = 1_073_741_823;

/// How many bytes the payloads of a session may have. A limit is at least the standard one, for which a server needs no setting,
/// and is raised beside the `jute.maxbuffer` of the servers.
#[derive(Clone, Copy)]
pub struct FrameLimits {
    /// The most bytes of a payload that comes, once a server has accepted the session.
    pub incoming: usize,
    /// The most bytes of a request.
    pub outgoing: usize,
    ghost least_incoming: { LONGEST_INCOMING ≤ incoming },
    ghost most_incoming: { incoming ≤ HIGHEST_LIMIT },
    ghost least_outgoing: { LONGEST_OUTGOING ≤ outgoing },
    ghost most_outgoing: { outgoing ≤ HIGHEST_LIMIT },
}

impl FrameLimits {
    ghost use Rattle.std.specs.Prelude.{◌≡◌, MatchOption};
    ghost use Rattle.zk_frames.specs.Limits.{standard_limits, MayLimit};

    /// The limits of a session for which none are given: 4,194,304 bytes that come, 1,048,575 that are sent.
    pub fn standard() -> FrameLimits
        ensures { result ≡ standard_limits }
    {
        FrameLimits {
            incoming: LONGEST_INCOMING,
            outgoing: LONGEST_OUTGOING,
        }
    }

    /// `None` if a limit is below the standard one, or above [`HIGHEST_LIMIT`].
    pub fn new(incoming: usize, outgoing: usize) -> Option<FrameLimits>
        ensures { MatchOption result (¬ MayLimit incoming outgoing)
            (λ limits. MayLimit incoming outgoing × (limits.incoming ≡ incoming) × (limits.outgoing ≡ outgoing)) }
    {
        if incoming < LONGEST_INCOMING || incoming > HIGHEST_LIMIT {
            return None;
        }
        if outgoing < LONGEST_OUTGOING || outgoing > HIGHEST_LIMIT {
            return None;
        }
        Some(FrameLimits { incoming, outgoing })
    }
}
