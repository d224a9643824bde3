//! What holds of the reading of payloads, and of what a connection leaves.

ghost use Rattle.zk_conversation.specs.Laws.{TicketsComeInOrder, RepliesGoToTheOldest};

/// What a connection left is taken in the order of asking, each ticket once.
pub fn tickets_come_in_order()
    ensures { TicketsComeInOrder }
{}

/// A reply goes to the oldest pending request with its xid, and to no other.
pub fn replies_go_to_the_oldest()
    ensures { RepliesGoToTheOldest }
{}
