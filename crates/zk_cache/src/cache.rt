//! The cache: an answer at each path, a side at a time.
ghost use Rattle.std.specs.Prelude.{◌≡◌, map, option_map, is_some, true, IsOk, OnOk, OnErr};
ghost use Rattle.std.specs.FinSet as set;
ghost use Rattle.zk_cache.specs.Cache.{no_answers, data_kept, names_kept, with_data, with_names, with_stale, with_good};
ghost use Rattle.zk_cache.specs.Contents.{answer_of, names_in};
ghost use Rattle.zk_jute.specs.Lenient.{or_empty};

use crate::answers::{DataAnswer, keep};
use crate::children::Children;
use crate::held::{Held, Mark, keep_good, mark_stale, peek, put};
use crate::sorted_names::sort_names;
use indexmap::IndexMap;
use std::alloc::{AllocError, Allocator};
use std::marker::Model;
use zk_jute::TextRef;
use zk_nodes::{Path, Side};

/// The answers that a client keeps, seen as a finite map from texts a side.
#[derive(Drop)]
pub struct Cache<A: Allocator + Copy> {
    alloc: A,
    data_answers: Held<DataAnswer<A>, A>,
    child_answers: Held<Children<A>, A>,
}

impl<A: Allocator + Copy> Model for Cache<A> {
    ghost use Rattle.zk_cache.specs.Cache.{Answers};
    ghost use Rattle.zk_cache.specs.Contents.{answer_of, names_in, seen_by};
    ghost use Rattle.zk_cache.specs.Look.{as_map};
    ghost use Rattle.zk_cache.specs.Code.{answers_code};

    ghost Value = { Answers };

    ghost coded = { answers_code };

    ghost view = { λ c.
        record { data_answers = as_map (seen_by answer_of) c.data_answers; child_answers = as_map (seen_by names_in) c.child_answers } };
}

impl<A: Allocator + Copy> Cache<A> {
    /// A cache that keeps nothing.
    pub fn new(alloc: A) -> Self
        ensures { result ≡ no_answers }
    {
        Cache {
            alloc,
            data_answers: IndexMap::new(alloc),
            child_answers: IndexMap::new(alloc),
        }
    }

    /// Keeps the answer, marked good, and the path with it. Where a good `Full` is kept, a `Known` with equal fields leaves it. An
    /// error says that there is no memory for a path that is new to the side; then nothing has changed.
    pub fn keep_data(&mut self, path: Path<A>, answer: DataAnswer<A>) -> Result<(), AllocError>
        ensures ok { OnOk result (self.new ≡ with_data self.old path (answer_of answer)) }
        ensures there { is_some (data_kept self.old path) ≡ true → IsOk result }
        ensures err { OnErr result (self.new ≡ self.old) }
    {
        keep(&mut self.data_answers, path.into_text(), answer)
    }

    /// Keeps the names as a set, with the zxid of the set's last change, marked good, and the path with them. A null name is the
    /// empty one. An error says that memory ran out; then nothing has changed.
    pub fn keep_children(
        &mut self,
        path: Path<A>,
        names: &[TextRef<'_>],
        pzxid: i64,
    ) -> Result<(), AllocError>
        ensures ok { OnOk result (self.new ≡ with_names self.old path (record {
          names = set.from_list (map (λ name. or_empty (option_map (λ text. text.now) name.text)) names.now);
          pzxid = pzxid;
        })) }
        ensures err { OnErr result (self.new ≡ self.old) }
    {
        let names = sort_names(self.alloc, names)?;
        let children = Children { names, pzxid };
        put(&mut self.child_answers, path.into_text(), children)
    }

    /// Marks the answer of the side stale, if there is one. It takes no memory.
    pub fn stale(&mut self, side: Side, path: &str)
        ensures { self.new ≡ with_stale self.old side path.now }
    {
        match side {
            Side::Data => mark_stale(&mut self.data_answers, path),
            Side::Child => mark_stale(&mut self.child_answers, path),
        }
    }

    /// Takes all answers out.
    pub fn clear(&mut self)
        ensures { self.new ≡ no_answers }
    {
        self.data_answers.clear();
        self.child_answers.clear();
    }

    /// Takes the stale answers out.
    pub fn forget_stale(&mut self)
        ensures { self.new ≡ with_good self.old }
    {
        keep_good(&mut self.data_answers);
        keep_good(&mut self.child_answers);
    }

    /// What is kept about the data of a path.
    pub fn peek_data(&self, path: &str) -> Option<(&DataAnswer<A>, Mark)>
        ensures { option_map (λ kept. record { answer = answer_of kept.0.now; mark = kept.1 }) result ≡ data_kept self.now path.now }
    {
        peek(&self.data_answers, path)
    }

    /// What is kept about the children of a path.
    pub fn peek_children(&self, path: &str) -> Option<(&Children<A>, Mark)>
        ensures { option_map (λ kept. record { answer = names_in kept.0.now; mark = kept.1 }) result ≡ names_kept self.now path.now }
    {
        peek(&self.child_answers, path)
    }
}
