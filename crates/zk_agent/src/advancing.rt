//! What a client with subjects and calls is handed.

ghost use Rattle.std.specs.Prelude.{◌≡◌, ◌++◌, ◌<ℤ◌, ℕ, pos, map, [], IfOk, OnErr, OnOk, OnSome, All};
ghost use Rattle.std.specs.List.{flat_map};
ghost use Rattle.zk_turns.specs.View.{view_at};
ghost use Rattle.zk_client.specs.Clients.{renewed_start, view_of};
ghost use Rattle.zk_client.specs.Views.{input_view, said};
ghost use Rattle.zk_follow.specs.Following.{due_again, news_in, told_of, BreaksOff, AreFollowed};
ghost use Rattle.zk_calls.specs.Lines.{left};
ghost use Rattle.zk_agent.specs.inner.Agents.{HandsOver};
ghost use Rattle.zk_agent.specs.Agents.{TakesSo};
ghost use Rattle.zk_agent.specs.Calls.{endings, hears_all, tells_all};
ghost use Rattle.zk_agent.specs.Overlong.{too_long_in, with_too_long};
ghost use Rattle.zk_agent.specs.Telling.{news_told, told_by};

use crate::action::{Action, push_news};
use crate::calls::{end_calls, push_all};
use crate::overlong::{refuse, too_long_in};
use crate::replies::{Heard, heard_in};
use std::alloc::{AllocError, Allocator};
use std::mem;
use zk_calls::{Ending, Line};
use zk_client::{Input, Output};
use zk_follow::{Follower, FollowerStop};

/// Tells what the client has said, ahead of it whose answer is too long, and then what there is to tell of the subjects. The line hears the
/// answers. The room of the outputs is given back.
fn report<A: Allocator + Copy>(
    alloc: A,
    follower: &mut Follower<A>,
    line: &mut Line<A>,
    outputs: Vec<Output<A>, A>,
    too_long: Option<u64>,
    actions: &mut Vec<Action<A>, A>,
) -> Result<Vec<Output<A>, A>, AllocError>
    requires { too_long ≡ too_long_in (said outputs.items) }
    ensures told { OnOk result (told_by actions.new.items
        ≡ (told_by actions.old.items ++ tells_all line.old.entries.items (with_too_long line.old.entries.items (said outputs.items)))
        ++ map news_told (flat_map (news_in (view_of follower.old.client) (said outputs.items)) follower.old.subjects.items)) }
    ensures line { OnOk result
        (line.new.entries.items ≡ hears_all line.old.entries.items (with_too_long line.old.entries.items (said outputs.items))) }
    ensures subjects { OnOk result (follower.new.subjects.items ≡ map (told_of (view_of follower.old.client)) follower.old.subjects.items) }
    ensures client { follower.new.client ≡ follower.old.client }
{
    let mut news = Vec::new(alloc);
    follower.report_all(outputs.as_slice(), &mut news)?;
    let room = push_all(line, outputs, too_long, actions)?;
    push_news(news.as_slice(), actions)?;
    Ok(room)
}

/// Hands the client an input, whose outputs are in this room. The line is as it is once the client has taken that.
pub(crate) fn advance<A: Allocator + Copy>(
    alloc: A,
    follower: &mut Follower<A>,
    line: &mut Line<A>,
    room: &mut Vec<Output<A>, A>,
    now: u64,
    input: Input<A>,
    actions: &mut Vec<Action<A>, A>,
) -> Result<Heard, FollowerStop>
    ensures takes { IfOk result (λ heard. TakesSo now (input_view input)
        (view_of follower.old.client) follower.old.subjects.items line.old.entries.items (told_by actions.old.items)
        (view_of follower.new.client) follower.new.subjects.items line.new.entries.items (told_by actions.new.items) heard) }
    ensures followed { OnOk result (AreFollowed now (view_of follower.new.client) follower.new.subjects.items) }
    ensures broke { OnErr result (BreaksOff (view_of follower.old.client) (view_of follower.new.client)) }
{
    let mut outputs = mem::replace(room, Vec::new(alloc));
    follower.step_into(now, input, &mut outputs)?;
    let heard = heard_in(outputs.as_slice());
    let too_long = too_long_in(outputs.as_slice());
    *room = report(alloc, follower, line, outputs, too_long, actions)?;
    refuse(follower, now, too_long);
    Ok(heard)
}

/// Hands the call over whose turn it is, if there is one.
pub(crate) fn hand_over<A: Allocator + Copy>(
    alloc: A,
    follower: &mut Follower<A>,
    line: &mut Line<A>,
    room: &mut Vec<Output<A>, A>,
    now: u64,
    actions: &mut Vec<Action<A>, A>,
) -> Result<Option<Heard>, FollowerStop>
    ensures hands { IfOk result
        (λ heard. HandsOver now (view_of follower.old.client) follower.old.subjects.items line.old.entries.items (told_by actions.old.items)
        (view_of follower.new.client) follower.new.subjects.items line.new.entries.items (told_by actions.new.items) heard) }
    ensures followed { IfOk result
        (λ heard. OnSome heard (AreFollowed now (view_of follower.new.client) follower.new.subjects.items)) }
    ensures broke { OnErr result (BreaksOff (view_of follower.old.client) (view_of follower.new.client)) }
{
    let Some((ticket, call)) = line.next()? else {
        return Ok(None);
    };
    let input = Input::Call(ticket, call);
    Ok(Some(advance(alloc, follower, line, room, now, input, actions)?))
}

/// Each call of the line is answered that the session has expired, and the client is one of another session.
pub(crate) fn begin<A: Allocator + Copy>(
    follower: &mut Follower<A>,
    line: &mut Line<A>,
    timeout_ms: i32,
    actions: &mut Vec<Action<A>, A>,
) -> Result<(), AllocError>
    requires { pos 0 <ℤ timeout_ms }
    ensures client { OnOk result (view_of follower.new.client ≡ view_at (renewed_start timeout_ms (view_of follower.old.client)) []) }
    ensures subjects { OnOk result (follower.new.subjects.items ≡ map due_again follower.old.subjects.items) }
    ensures followed { OnOk result ((now : ℕ) → AreFollowed now (view_of follower.new.client) follower.new.subjects.items) }
    ensures line { OnOk result (line.new.entries.items ≡ left Ending.Expired line.old.entries.items) }
    ensures told { OnOk result (told_by actions.new.items ≡ told_by actions.old.items ++ endings Ending.Expired line.old.entries.items) }
    ensures same { OnErr result (view_of follower.new.client ≡ view_of follower.old.client) }
{
    end_calls(line, Ending::Expired, actions)?;
    follower.renew(timeout_ms)
}
