//! The registry: three lists of paths.
ghost use Rattle.std.specs.Prelude.{◌≡◌, ◌<◌, ◌≤◌, length, true, false, IsOk, OnOk, OnErr, IfOk, Some, None};
ghost use Rattle.std.specs.Prelude.{option_map, string_bytes, if◌then◌else◌};
ghost use Rattle.zk_watches.specs.Lists.{no_lists, has, list_has, side_has, count_of, registered, fires, fired, without, IsSound};
ghost use Rattle.zk_limits.specs.declared.limits.TheConstants.{LONGEST_PATH, MOST_PATHS};

use crate::in_order::InOrder;
use crate::ordered::Ordered;
use std::alloc::{AllocError, Allocator};
use std::marker::Model;
use zk_nodes::{Path, Side};
use zk_records::Event;

/// The paths that a client watches, seen as three lists of texts: those whose data it watches, those whose making it waits
/// for, and those whose children it watches. Each is in the order in which its paths last came into it. The first two are the
/// data side; a path is in at most one of them. A side holds at most 65,536 paths.
#[derive(Drop)]
pub struct Registry<A: Allocator + Copy> {
    alloc: A,
    data_watches: Ordered<A>,
    exist_watches: Ordered<A>,
    child_watches: Ordered<A>,
}

impl<A: Allocator + Copy> Model for Registry<A> {
    ghost use Rattle.zk_watches.specs.Lists.{Lists, IsSound};

    ghost Value = { Lists };

    ghost view = { λ r. record { data_watches = r.data_watches; exist_watches = r.exist_watches; child_watches = r.child_watches } };

    ghost invariant = { λ r.
        IsSound (record { data_watches = r.data_watches; exist_watches = r.exist_watches; child_watches = r.child_watches }) };
}

/// The sides on which an event ended a watch, each with the text of the path, which nothing keeps any more. A watch is one-time
/// (ZooKeeper Programmer's Guide, "ZooKeeper Watches").
#[derive(Drop)]
pub struct Fired<A: Allocator> {
    pub on_data: Option<String<A>>,
    pub on_child: Option<String<A>>,
}

impl<A: Allocator + Copy> Registry<A> {
    /// A registry with no paths.
    pub fn new(alloc: A) -> Self
        ensures { result ≡ no_lists }
    {
        Registry {
            alloc,
            data_watches: Ordered::new(alloc),
            exist_watches: Ordered::new(alloc),
            child_watches: Ordered::new(alloc),
        }
    }

    /// How many paths are on the side.
    pub fn len(&self, side: Side) -> usize
        ensures len { result ≡ count_of self.now side }
        ensures sound { IsSound self.now }
    {
        match side {
            Side::Data => self.data_watches.len() + self.exist_watches.len(),
            Side::Child => self.child_watches.len(),
        }
    }

    /// Whether the path is on the side.
    pub fn contains(&self, side: Side, path: &str) -> bool
        ensures { result ≡ side_has self.now side path.now }
    {
        match side {
            Side::Data => self.data_watches.contains(path) || self.exist_watches.contains(path),
            Side::Child => self.child_watches.contains(path),
        }
    }

    /// Puts the path on the side as [`register`](Registry::register) does, for a caller that has seen that there is room. An
    /// error says that memory ran out, and nothing has changed then.
    pub fn watch(&mut self, side: Side, path: &Path<A>, present: bool) -> Result<(), AllocError>
        requires { side_has self.old side path.now ≡ false → count_of self.old side < MOST_PATHS }
        ensures ok { OnOk result (self.new ≡ registered self.old side present path.now) }
        ensures there { list_has self.old side present path.now ≡ true → IsOk result }
        ensures err { OnErr result (self.new ≡ self.old) }
    {
        match side {
            Side::Data => self.add_to_data(path.as_str(), present),
            Side::Child => self.add_to_child(path.as_str()),
        }
    }

    fn add_to_data(&mut self, text: &str, present: bool) -> Result<(), AllocError>
        requires room { side_has self.old Side.Data text.now ≡ false → count_of self.old Side.Data < MOST_PATHS }
        requires short { length text.now ≤ LONGEST_PATH }
        ensures ok { OnOk result (self.new ≡ registered self.old Side.Data present text.now) }
        ensures there { list_has self.old Side.Data present text.now ≡ true → IsOk result }
        ensures err { OnErr result (self.new ≡ self.old) }
    {
        // A path that was there already is not in the other list.
        if present {
            if self.data_watches.add(text)? {
                self.exist_watches.take_out(text);
            }
        } else if self.exist_watches.add(text)? {
            self.data_watches.take_out(text);
        }
        Ok(())
    }

    fn add_to_child(&mut self, text: &str) -> Result<(), AllocError>
        requires room { side_has self.old Side.Child text.now ≡ false → count_of self.old Side.Child < MOST_PATHS }
        requires short { length text.now ≤ LONGEST_PATH }
        ensures ok { OnOk result (self.new ≡ registered self.old Side.Child false text.now) }
        ensures there { has self.old.child_watches text.now ≡ true → IsOk result }
        ensures err { OnErr result (self.new ≡ self.old) }
    {
        self.child_watches.add(text)?;
        Ok(())
    }

    /// Takes the path off each side that the event concerns, in constant time and with no memory. The text may be any: a server
    /// may tell of a path that is not watched.
    pub fn fire(&mut self, event: Event, path: &str) -> Fired<A>
        ensures on_data { option_map string_bytes result.on_data
            ≡ (if fires self.old event Side.Data path.now then Some path.now else None) }
        ensures on_child { option_map string_bytes result.on_child
            ≡ (if fires self.old event Side.Child path.now then Some path.now else None) }
        ensures lists { self.new ≡ fired self.old event path.now }
    {
        let on_data = if event.concerns(Side::Data) {
            self.fire_data(path)
        } else {
            None
        };
        let on_child = if event.concerns(Side::Child) {
            self.fire_child(path)
        } else {
            None
        };
        Fired { on_data, on_child }
    }

    fn fire_data(&mut self, path: &str) -> Option<String<A>>
        ensures was { option_map string_bytes result ≡ (if side_has self.old Side.Data path.now then Some path.now else None) }
        ensures lists { self.new ≡ record {
          data_watches = without self.old.data_watches path.now;
          exist_watches = without self.old.exist_watches path.now;
          child_watches = self.old.child_watches;
        } }
    {
        // A path is in at most one of the two.
        if let Some(text) = self.data_watches.take_out(path) {
            return Some(text);
        }
        self.exist_watches.take_out(path)
    }

    fn fire_child(&mut self, path: &str) -> Option<String<A>>
        ensures was { option_map string_bytes result ≡ (if side_has self.old Side.Child path.now then Some path.now else None) }
        ensures lists { self.new ≡ record {
          data_watches = self.old.data_watches;
          exist_watches = self.old.exist_watches;
          child_watches = without self.old.child_watches path.now;
        } }
    {
        self.child_watches.take_out(path)
    }

    /// Takes all paths out.
    pub fn clear(&mut self)
        ensures { self.new ≡ no_lists }
    {
        self.data_watches.clear();
        self.exist_watches.clear();
        self.child_watches.clear();
    }

    /// The lists in their order, to be cut into parts. It takes memory for the order alone; the texts are lent.
    pub fn in_order(&self) -> Result<InOrder<'_, A>, AllocError>
        ensures { IfOk result (λ lists. lists ≡ self.now) }
    {
        Ok(InOrder {
            alloc: self.alloc,
            data_watches: self.data_watches.list()?,
            exist_watches: self.exist_watches.list()?,
            child_watches: self.child_watches.list()?,
        })
    }
}
