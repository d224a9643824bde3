//! Replies to calls.

ghost use Rattle.std.specs.Prelude.{◌≡◌, ◌<◌, ℕ, List, [], ◌∷◌, ◌++◌, OnOk, IfSome, Some, is_some, true, bytes_eq, if◌then◌else◌};
ghost use Rattle.zk_nodes.specs.Path.{Text};
ghost use Rattle.zk_nodes.specs.declared.side.Side.{Side as A_side};
ghost use Rattle.zk_nodes.specs.declared.side.Side.TheVariants.{Data, Child};
ghost use Rattle.zk_conversation.specs.Pending.{Pending};
ghost use Rattle.zk_conversation.specs.Questions.{watched_side};
ghost use Rattle.zk_conversation.specs.Arriving.{Replied};
ghost use Rattle.zk_conversation.specs.Views.{question_view, result_view};
ghost use Rattle.zk_session.specs.declared.states.State.TheVariants.{Connected};
ghost use Rattle.zk_watches.specs.Lists.{registered, count_of};
ghost use Rattle.zk_cache.specs.Cache.{data_kept, names_kept};
ghost use Rattle.zk_cache.specs.Contents.{answer_of};
ghost use Rattle.zk_cache.specs.inner.Contents.{set_of};
ghost use Rattle.zk_cache.specs.Kept.{good, merged};
ghost use Rattle.zk_turns.specs.Past.{Took, Replies, leaves_data, leaves_child};
ghost use Rattle.zk_turns.specs.Turns.{Answer};
ghost use Rattle.zk_turns.specs.Turns as turns;
ghost use Rattle.zk_turns.specs.Taken.{leaves_watch, taken_of};
ghost use Rattle.zk_turns.specs.Rule.{next, says, with_node, with_children, keep_node, keep_children, says_there};
ghost use Rattle.zk_client.specs.inner.Left.{side_left, data_left, children_left, side_in, data_in, children_in};
ghost use Rattle.zk_client.specs.Views.{said};
ghost use Rattle.zk_client.specs.inner.Seen.{view_with, while_pending, origin};
ghost use Rattle.zk_client.specs.inner.Sound.{CoreIsSound, CoreHasArrived, IsLeft};
ghost use Rattle.zk_client.specs.inner.Steps.{closing};
ghost use Rattle.zk_limits.specs.declared.limits.TheConstants.{MOST_PATHS};

use crate::copies::copied;
use crate::fault::Fault;
use crate::machine::{Core, say};
use crate::output::{Outcome, Output};
use std::alloc::{AllocError, Allocator};
use zk_cache::{Cache, DataAnswer};
use zk_conversation::{Question, ReplyResult};
use zk_jute::TextRef;
use zk_nodes::{DataStat, Path, Side, Stat, copied_data};
use zk_watches::Registry;

/// What a reply that leaves a watch says of the path of its question, lent by the reply.
#[derive(Drop)]
enum Left<'a, 'b, A: Allocator> {
    /// There is no node.
    Absent(Path<A>),
    /// There is a node, and this is known of it.
    Known(Path<A>, Stat),
    /// These are its data.
    Full(Path<A>, Option<&'b [u8]>, Stat),
    /// These are the names below it, as of the change with this zxid.
    Names(Path<A>, &'a [TextRef<'b>], i64),
}

/// Whether the reply leaves a watch: exists does in any case, the other reads where the node is there.
fn leaves_watch<A: Allocator + Copy>(question: &Question<A>, found: &ReplyResult<'_, A>) -> bool
    ensures { result ≡ leaves_watch (question_view question.now) (result_view found.now) }
{
    match (question, found) {
        (Question::Exists { watch: true, .. }, ReplyResult::Code(code)) => code.is_no_node(),
        (Question::Exists { watch: true, .. }, ReplyResult::Stat(_)) => true,
        (Question::GetData { watch: true, .. }, ReplyResult::Data { .. }) => true,
        (Question::GetChildren { watch: true, .. }, ReplyResult::Names { .. }) => true,
        _ => false,
    }
}

/// What a reply leaves a watch with, if it leaves one.
fn left_by<'a, 'b, A: Allocator + Copy>(
    question: Question<A>,
    found: &'a ReplyResult<'b, A>,
) -> Option<Left<'a, 'b, A>>
    ensures side { IfSome (side_in result) (λ side. watched_side (question_view question) ≡ Some side) }
    ensures data { data_in result ≡ leaves_data (question_view question) (result_view found.entry.now) }
    ensures child { children_in result ≡ leaves_child (question_view question) (result_view found.entry.now) }
{
    match (question, found) {
        (Question::Exists { path, watch: true }, ReplyResult::Code(code)) => {
            if code.is_no_node() {
                return Some(Left::Absent(path));
            }
            None
        }
        (Question::Exists { path, watch: true }, ReplyResult::Stat(stat)) => {
            Some(Left::Known(path, *stat))
        }
        (Question::GetData { path, watch: true }, ReplyResult::Data { bytes, stat }) => {
            Some(Left::Full(path, *bytes, *stat))
        }
        (Question::GetChildren { path, watch: true }, ReplyResult::Names { names, stat }) => {
            Some(Left::Names(path, names, stat.pzxid))
        }
        _ => None,
    }
}

/// Keeps an answer about a node, and watches it: there is a node, or the making of one is waited for.
fn keep_node<A: Allocator + Copy>(
    path: Path<A>,
    answer: DataAnswer<A>,
    registry: &mut Registry<A>,
    cache: &mut Cache<A>,
) -> Result<(), AllocError>
    requires room { count_of registry.old Data < MOST_PATHS }
    ensures lists { OnOk result (registry.new ≡ registered registry.old Data (says_there (answer_of answer)) path) }
    ensures nodes { OnOk result ((text : Text) → data_kept cache.new text
        ≡ (if bytes_eq path text then good (merged (data_kept cache.old text) (answer_of answer)) else data_kept cache.old text)) }
    ensures children { OnOk result ((text : Text) → names_kept cache.new text ≡ names_kept cache.old text) }
{
    let present = is_there(&answer);
    registry.watch(Side::Data, &path, present)?;
    cache.keep_data(path, answer)
}

fn is_there<A: Allocator>(answer: &DataAnswer<A>) -> bool
    ensures { result ≡ says_there (answer_of answer.now) }
{
    match answer {
        DataAnswer::Absent => false,
        DataAnswer::Known(_) => true,
        DataAnswer::Full(_, _) => true,
    }
}

/// Keeps the names of a node's children, and watches them.
fn keep_names<A: Allocator + Copy>(
    path: Path<A>,
    names: &[TextRef<'_>],
    pzxid: i64,
    registry: &mut Registry<A>,
    cache: &mut Cache<A>,
) -> Result<(), AllocError>
    requires room { count_of registry.old Child < MOST_PATHS }
    ensures lists { OnOk result (registry.new ≡ registered registry.old Child true path) }
    ensures nodes { OnOk result ((text : Text) → data_kept cache.new text ≡ data_kept cache.old text) }
    ensures children { OnOk result ((text : Text) → names_kept cache.new text
        ≡ (if bytes_eq path text then good (record { names = set_of names.now; pzxid = pzxid }) else names_kept cache.old text)) }
{
    registry.watch(Side::Child, &path, true)?;
    cache.keep_children(path, names, pzxid)
}

/// Keeps what a reply that leaves a watch says, and watches its path.
fn keep<A: Allocator + Copy>(
    alloc: A,
    left: Left<'_, '_, A>,
    registry: &mut Registry<A>,
    cache: &mut Cache<A>,
) -> Result<(), AllocError>
    requires room { count_of registry.old (side_left left) < MOST_PATHS }
    ensures lists { OnOk result (registry.new ≡ with_children (children_left left.entry) (with_node (data_left left.entry) registry.old)) }
    ensures nodes { OnOk result
        ((text : Text) → data_kept cache.new text ≡ keep_node (data_left left.entry) text (data_kept cache.old text)) }
    ensures children { OnOk result
        ((text : Text) → names_kept cache.new text ≡ keep_children (children_left left.entry) text (names_kept cache.old text)) }
{
    match left {
        Left::Absent(path) => keep_node(path, DataAnswer::Absent, registry, cache),
        Left::Known(path, stat) => {
            let answer = DataAnswer::Known(DataStat::from(stat));
            keep_node(path, answer, registry, cache)
        }
        Left::Full(path, bytes, stat) => {
            let bytes = copied_data(alloc, bytes)?;
            let answer = DataAnswer::Full(bytes, DataStat::from(stat));
            keep_node(path, answer, registry, cache)
        }
        Left::Names(path, names, pzxid) => keep_names(path, names, pzxid, registry, cache),
    }
}

/// A call has its reply.
fn answer<A: Allocator + Copy>(
    alloc: A,
    ticket: u64,
    zxid: i64,
    found: &ReplyResult<'_, A>,
    outputs: &mut Vec<Output<A>, A>,
) -> Result<(), AllocError>
    ensures { OnOk result
        (said outputs.new.items ≡ said outputs.old.items ++ Answer ticket (turns.Replied zxid (result_view found.now)) ∷ []) }
{
    let result = copied(alloc, found)?;
    let outcome = Outcome::Replied { zxid, result };
    say(outputs, Output::Answer { ticket, outcome })
}

impl<A: Allocator + Copy> Core<A> {
    /// The reply to a call.
    pub(crate) fn reply(
        &mut self,
        ticket: u64,
        question: Question<A>,
        zxid: i64,
        found: &ReplyResult<'_, A>,
        outputs: &mut Vec<Output<A>, A>,
    ) -> Result<(), AllocError>
        requires { CoreHasArrived (Replied ticket (question_view question) zxid (result_view found.now)) self.old }
        ensures sound { OnOk result (CoreIsSound self.new) }
        ensures next { OnOk result ((held : List ℕ) (pending : List Pending)
            → IsLeft (Replied ticket (question_view question) zxid (result_view found.now)) pending self.old.conversation.pending →
            view_with [] self.new ≡ next (while_pending pending (view_with held self.old))
            (taken_of self.old.session.saved.last (Replied ticket (question_view question) zxid (result_view found.now)))) }
        ensures says { OnOk result ((held : List ℕ) (pending : List Pending)
            → IsLeft (Replied ticket (question_view question) zxid (result_view found.now)) pending self.old.conversation.pending →
            said outputs.new.items ≡ said outputs.old.items ++ says (while_pending pending (view_with held self.old))
            (taken_of self.old.session.saved.last (Replied ticket (question_view question) zxid (result_view found.now)))) }
        ensures origin { origin self.new ≡ origin self.old }
    {
        let seen = self.session.last_zxid();
        if leaves_watch(&question, found) && zxid < seen {
            return self.give_up_reply(ticket, Fault::Behind { seen, came: zxid }, outputs);
        }
        self.take_reply(ticket, question, zxid, found, outputs)
    }

    // A reply that is taken: what it says is kept, if it leaves a watch.
    fn take_reply(
        &mut self,
        ticket: u64,
        question: Question<A>,
        zxid: i64,
        found: &ReplyResult<'_, A>,
        outputs: &mut Vec<Output<A>, A>,
    ) -> Result<(), AllocError>
        requires { CoreHasArrived (Replied ticket (question_view question) zxid (result_view found.now)) self.old }
        ensures sound { OnOk result (CoreIsSound self.new) }
        ensures next { OnOk result ((held : List ℕ) (pending : List Pending)
            → IsLeft (Replied ticket (question_view question) zxid (result_view found.now)) pending self.old.conversation.pending →
            view_with [] self.new ≡ next (while_pending pending (view_with held self.old))
            (Took (Replies ticket (question_view question) zxid (result_view found.now)))) }
        ensures says { OnOk result (said outputs.new.items ≡ said outputs.old.items
            ++ (Answer ticket (turns.Replied zxid (result_view found.now)) ∷ closing (question_view question))) }
        ensures origin { origin self.new ≡ origin self.old }
    {
        self.session.saw(zxid);
        answer(self.alloc, ticket, zxid, found, outputs)?;
        if question.closes() {
            return self.close(outputs);
        }
        match left_by(question, found) {
            None => Ok(()),
            Some(left) => keep(self.alloc, left, &mut self.registry, &mut self.cache),
        }
    }
}
