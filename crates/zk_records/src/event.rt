//! What happened to a watched node.

ghost use Rattle.std.specs.Prelude.{◌≡◌};
ghost use Rattle.zk_records.specs.Events.{event_of, event_number, concerns};

use zk_nodes::Side;

/// What happened to a watched node: the event types of the ZooKeeper Programmer's Guide.
#[derive(Clone, Copy)]
pub enum Event {
    /// NodeCreated, type 1: a node was made at a path where none was.
    Created,
    /// NodeDeleted, type 2: the node was deleted.
    Deleted,
    /// NodeDataChanged, type 3: the node's data were set, to the same bytes too.
    DataChanged,
    /// NodeChildrenChanged, type 4: a child of the node was made or deleted.
    ChildrenChanged,
}

impl Event {
    /// The event of this type number, if it is one of the four.
    pub fn new(kind: i32) -> Option<Event>
        ensures { result ≡ event_of kind }
    {
        match kind {
            1 => Some(Event::Created),
            2 => Some(Event::Deleted),
            3 => Some(Event::DataChanged),
            4 => Some(Event::ChildrenChanged),
            _ => None,
        }
    }

    /// Its type number, 1 to 4, as a notice has it.
    pub fn number(self) -> i32
        ensures { result ≡ event_number self }
    {
        match self {
            Event::Created => 1,
            Event::Deleted => 2,
            Event::DataChanged => 3,
            Event::ChildrenChanged => 4,
        }
    }

    /// Whether it uses up a watch on this side of its path. A deletion does so on both.
    pub fn concerns(self, side: Side) -> bool
        ensures { result ≡ concerns self side }
    {
        match self {
            Event::Created | Event::DataChanged => side == Side::Data,
            Event::ChildrenChanged => side == Side::Child,
            Event::Deleted => true,
        }
    }
}
