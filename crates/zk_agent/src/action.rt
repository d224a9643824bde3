//! What comes out of an agent.

ghost use Rattle.std.specs.Prelude.{◌≡◌, ◌++◌, ◌∷◌, [], map, OnOk};
ghost use Rattle.zk_trees.specs.Tending.{trees_told};
ghost use Rattle.zk_agent.specs.Telling.{action_view, due_told, news_told, told_by, TellsTree};

use crate::credential::Credential;
use std::alloc::{AllocError, Allocator, Global};
use std::collections::VecDeque;
use zk_client::{Event, Fault, Outcome, Side, State};
use zk_dialler::DialDue;
use zk_follow::{News, Refusal};
use zk_trees::TreeNews;

/// What an agent asks of its program, and what it tells it.
#[derive(Drop)]
pub enum Action<A: Allocator = Global> {
    /// Connect to the address at this place of the program's list. After this many milliseconds the attempt will be given up.
    Dial {
        place: usize,
        within_ms: u64,
    },
    /// Close the connection, or give the attempt up. What was not yet sent on it is forgotten.
    HangUp,
    /// Write all of these bytes, which are one frame.
    Send(Vec<u8, A>),
    /// Write all of these bytes, which are one frame and introduce the session by a credential. Those hand them on that hand credentials
    /// in: no driver of `zk_driver` does.
    Introduce(Credential<A>),
    /// The server has answered the credential at this place of those that were handed in, from 0 on, on this connection. Code 0 accepts it.
    /// Another one refuses it: the server ends the connection, and the agent is of no use, since it would introduce itself so again. Let it
    /// go.
    Credential {
        place: usize,
        code: i32,
    },
    /// A call is answered: by its reply, or by why there is none.
    Answer {
        ticket: u64,
        outcome: Outcome<A>,
    },
    /// The limit of a call has come, and it waits no more. One that was sent may happen yet, or have happened; its reply is told to nobody.
    TimedOut {
        ticket: u64,
        was_sent: bool,
    },
    /// What was known of a side of the path has ended.
    Report {
        path: String<A>,
        side: Side,
        event: Event,
    },
    /// The state of the session is another one.
    State(State),
    /// The connection is given up, for this reason.
    GivenUp(Fault),
    /// Another session begins: the one before has expired, with its ephemeral nodes.
    Renewed,
    /// What is kept of the subject is good: look it up in the client. It was not good, or its path was reported since that was told last,
    /// or servers had an election, and it was read again.
    Shown {
        ticket: u64,
    },
    /// A read of the subject was refused, and not for the reason that was told last. It is read again after a second; if its answer is
    /// too long once more, after a minute.
    Refused {
        ticket: u64,
        why: Refusal,
    },
    /// What there is to tell of a tree: a side of a node is followed for it, or followed no more; or what is known of the whole.
    Tree(TreeNews<A>),
}

/// Adds one.
pub(crate) fn push<A: Allocator>(
    actions: &mut Vec<Action<A>, A>,
    action: Action<A>,
) -> Result<(), AllocError>
    ensures { OnOk result (told_by actions.new.items ≡ told_by actions.old.items ++ action_view action ∷ []) }
{
    actions.push(action).map_err(AllocError::from)
}

/// What a program is told of a subject.
fn action_about<A: Allocator>(ticket: u64, news: News) -> Action<A>
    ensures { action_view result ≡ news_told (ticket, news) }
{
    match news {
        News::Shown => Action::Shown { ticket },
        News::Refused(why) => Action::Refused { ticket, why },
    }
}

/// Adds what a program is told of subjects, in order.
pub(crate) fn push_news<A: Allocator>(
    news: &[(u64, News)],
    actions: &mut Vec<Action<A>, A>,
) -> Result<(), AllocError>
    ensures { OnOk result (told_by actions.new.items ≡ told_by actions.old.items ++ map news_told news.now) }
{
    for one in news {
        push(actions, action_about(one.0, one.1))?;
    }
    Ok(())
}

/// Adds what a program is told of trees, in order.
#[inline(always)]
pub(crate) fn push_trees<A: Allocator>(
    news: Vec<TreeNews<A>, A>,
    actions: &mut Vec<Action<A>, A>,
) -> Result<(), AllocError>
    ensures { OnOk result (told_by actions.new.items ≡ told_by actions.old.items ++ map TellsTree (trees_told news.items)) }
{
    if news.as_slice().is_empty() {
        return Ok(());
    }
    let mut left = VecDeque::from_vec(news);
    while let Some(one) = left.pop_front() {
        push(actions, Action::Tree(one))?;
    }
    Ok(())
}

/// Adds what a program is asked to do about the connection.
pub(crate) fn push_due<A: Allocator>(
    due: Option<DialDue>,
    actions: &mut Vec<Action<A>, A>,
) -> Result<(), AllocError>
    ensures { OnOk result (told_by actions.new.items ≡ told_by actions.old.items ++ due_told due) }
{
    match due {
        Some(DialDue::Dial { place, within_ms }) => push(
            actions,
            Action::Dial { place, within_ms },
        ),
        Some(DialDue::GiveUp) => push(actions, Action::HangUp),
        None => Ok(()),
    }
}
