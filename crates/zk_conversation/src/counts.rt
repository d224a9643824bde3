//! How much is pending, counted as it comes and goes.

ghost use Rattle.std.specs.Prelude.{◌≡◌, ◌^◌, ◌<◌};
ghost use Rattle.zk_conversation.specs.inner.Counted.{counts_with, counts_without, counts_without_call};
ghost use Rattle.zk_conversation.specs.Views.{question_view, waiting_view};

use crate::awaited::Waiting;
use crate::question::Question;
use std::alloc::Allocator;
use zk_records::Side;

/// Of the pending calls: how many there are, how many are to leave a watch on each side, and how many close the session.
#[derive(Clone, Copy)]
pub(crate) struct Counts {
    pub(crate) calls: u32,
    pub(crate) on_data: u32,
    pub(crate) on_child: u32,
    pub(crate) closes: u32,
}

/// Nothing is pending.
pub(crate) const NONE: Counts = Counts {
    calls: 0,
    on_data: 0,
    on_child: 0,
    closes: 0,
};

impl Counts {
    /// One more call.
    pub(crate) fn with<A: Allocator>(self, question: &Question<A>) -> Counts
        requires calls { self.calls < 2 ^ 31 }
        requires on_data { self.on_data < 2 ^ 31 }
        requires on_child { self.on_child < 2 ^ 31 }
        requires closes { self.closes < 2 ^ 31 }
        ensures { result ≡ counts_with self (question_view question.now) }
    {
        let side = question.watched_side();
        Counts {
            calls: self.calls + 1,
            on_data: self.on_data + (side == Some(Side::Data)) as u32,
            on_child: self.on_child + (side == Some(Side::Child)) as u32,
            closes: self.closes + question.closes() as u32,
        }
    }

    /// What is left once the oldest request has its reply.
    pub(crate) fn without<A: Allocator>(self, waiting: &Waiting<A>) -> Counts
        ensures { result ≡ counts_without self (waiting_view waiting.now) }
    {
        match waiting {
            Waiting::Part { last: _ } => self,
            Waiting::Call {
                ticket: _,
                question,
            } => self.without_call(question),
        }
    }

    fn without_call<A: Allocator>(self, question: &Question<A>) -> Counts
        ensures { result ≡ counts_without_call self (question_view question.now) }
    {
        let side = question.watched_side();
        Counts {
            calls: self.calls.saturating_sub(1),
            on_data: self
                .on_data
                .saturating_sub((side == Some(Side::Data)) as u32),
            on_child: self
                .on_child
                .saturating_sub((side == Some(Side::Child)) as u32),
            closes: self.closes.saturating_sub(question.closes() as u32),
        }
    }
}
