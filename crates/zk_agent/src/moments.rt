//! Moments, and states.

ghost use Rattle.std.specs.Prelude.{◌≡◌};
ghost use Rattle.zk_dialler.specs.Dialling.{has_come};
ghost use Rattle.zk_follow.specs.Following.{first_of};
ghost use Rattle.zk_agent.specs.Agents.{is_closed, is_connected};
ghost use Rattle.zk_agent.specs.Credentials.{is_connecting};
ghost use Rattle.zk_agent.specs.Waits.{is_there};

use zk_client::State;

/// The first of two moments.
pub(crate) fn first_of(moment: Option<u64>, other: Option<u64>) -> Option<u64>
    ensures { result ≡ first_of moment other }
{
    match (moment, other) {
        (Some(moment), Some(other)) => Some(moment.min(other)),
        (Some(moment), None) => Some(moment),
        (None, other) => other,
    }
}

/// The first of five moments.
pub(crate) fn first_of_five(
    due: Option<u64>,
    attempt: Option<u64>,
    again: Option<u64>,
    limit: Option<u64>,
    answer: Option<u64>,
) -> Option<u64>
    ensures { result ≡ first_of (first_of (first_of (first_of due attempt) again) limit) answer }
{
    first_of(
        first_of(first_of(first_of(due, attempt), again), limit),
        answer,
    )
}

/// Whether a moment has come, if there is one.
pub(crate) fn has_come(now: u64, moment: Option<u64>) -> bool
    ensures { result ≡ has_come now moment }
{
    match moment {
        Some(moment) => moment <= now,
        None => false,
    }
}

/// Whether a server has accepted the connection.
pub(crate) fn is_connected(state: State) -> bool
    ensures { result ≡ is_connected state }
{
    matches!(state, State::Connected)
}

/// Whether a connection is there on which no server has answered for the session.
pub(crate) fn is_connecting(state: State) -> bool
    ensures { result ≡ is_connecting state }
{
    matches!(state, State::Connecting)
}

/// Whether a connection is there.
pub(crate) fn is_there(state: State) -> bool
    ensures { result ≡ is_there state }
{
    matches!(state, State::Connecting | State::Connected)
}

/// Whether the session was closed.
pub(crate) fn is_closed(state: State) -> bool
    ensures { result ≡ is_closed state }
{
    matches!(state, State::Closed)
}
