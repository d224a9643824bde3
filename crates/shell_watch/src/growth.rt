//! How trees grow.

ghost use Rattle.std.specs.Prelude.{◌≡◌, ◌+◌, IfSome, OnSome};
ghost use Rattle.shell_watch.specs.Trees.{has_bounded, noted_bound};

/// How the trees of a watch grow: the most nodes of each, how many of them have more, the ticket by which a program follows next, and
/// whether they grow still: what is told of trees counts until the end of the session is asked for.
#[derive(Clone, Copy)]
pub(crate) struct Growth {
    pub(crate) most: u64,
    pub(crate) bounded: u64,
    pub(crate) ticket: u64,
    pub(crate) is_growing: bool,
}

impl Growth {
    /// The ticket by which a program follows next: no other has it from then on.
    pub(crate) fn take_ticket(&mut self) -> Option<u64>
        ensures ticket { IfSome result (λ ticket. ticket ≡ self.old.ticket) }
        ensures next { OnSome result (self.new ≡ record self.old { ticket = self.old.ticket + 1 }) }
    {
        let ticket = self.ticket;
        self.ticket = ticket.checked_add(1)?;
        Some(ticket)
    }

    /// Whether a tree has more nodes than the most.
    pub(crate) fn has_bounded(&self) -> bool
        ensures { result ≡ has_bounded self.now }
    {
        self.bounded != 0
    }

    /// Notes that a tree has more nodes than the most, or that it has them no more.
    pub(crate) fn note_bound(&mut self, is_bounded: bool)
        ensures { self.new ≡ noted_bound is_bounded self.old }
    {
        self.bounded = if is_bounded {
            self.bounded.saturating_add(1)
        } else {
            self.bounded.saturating_sub(1)
        };
    }
}
