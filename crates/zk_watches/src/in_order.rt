//! The lists of a registry in their order, lent for a request.
ghost use Rattle.std.specs.Prelude.{◌≡◌, ◌<◌, ◌≤◌, All, map, length, IfOk, take, drop, slice_index_or};
ghost use Rattle.zk_watches.specs.Lists.{IsSound};
ghost use Rattle.zk_watches.specs.Parts.{Watch, weight_of, watches_of, parts};
ghost use Rattle.zk_watches.specs.Lent.{lists_of};

use crate::parts::{weight_in, window};
use std::alloc::{AllocError, Allocator};
use std::marker::Model;
use zk_limits::MOST_WEIGHT;
use zk_records::SetWatchesRef;

/// The lists of a registry, each in its order.
#[derive(Drop)]
pub struct InOrder<'a, A: Allocator + Copy> {
    pub(crate) alloc: A,
    pub(crate) data_watches: Vec<&'a str, A>,
    pub(crate) exist_watches: Vec<&'a str, A>,
    pub(crate) child_watches: Vec<&'a str, A>,
}

impl<'a, A: Allocator + Copy> Model for InOrder<'a, A> {
    ghost use Rattle.std.specs.Prelude.{map};
    ghost use Rattle.zk_watches.specs.Lists.{Lists, IsSound};

    ghost Value = { Lists };

    ghost view = { λ r. record {
      data_watches = map (λ text. text.now) r.data_watches.items;
      exist_watches = map (λ text. text.now) r.exist_watches.items;
      child_watches = map (λ text. text.now) r.child_watches.items;
    } };

    ghost invariant = { λ r. IsSound (record {
      data_watches = map (λ text. text.now) r.data_watches.items;
      exist_watches = map (λ text. text.now) r.exist_watches.items;
      child_watches = map (λ text. text.now) r.child_watches.items;
    }) };
}

impl<'a, A: Allocator + Copy> InOrder<'a, A> {
    /// How many paths there are, in all three lists.
    pub fn len(&self) -> usize
        ensures len { result ≡ length (watches_of self.now) }
    {
        self.data_watches.len() + self.exist_watches.len() + self.child_watches.len()
    }

    /// The lists in as few parts as `MOST_WEIGHT` allows, in order: the data list, the exist list, the child list, each in the
    /// order of registration. All parts carry the same relative zxid. No paths, no part. An error says that there is no memory for
    /// the vector of parts; the paths are lent.
    pub fn parts(&self, relative: i64) -> Result<Vec<SetWatchesRef<'_>, A>, AllocError>
        ensures parts { IfOk result (λ ps. map lists_of ps.items ≡ parts self.now) }
        ensures relative { IfOk result (λ ps. All (λ part. part.relative_zxid ≡ relative) ps.items) }
    {
        let mut parts = Vec::new(self.alloc);
        let count = self.len();
        let mut start = 0;
        let mut weight = 0;
        for at in 0..count {
            let more = self.weight_at(at);
            if weight + more > MOST_WEIGHT {
                parts.push(self.part(relative, start, at))?;
                start = at;
                weight = 0;
            }
            weight += more;
        }
        if start < count {
            parts.push(self.part(relative, start, count))?;
        }
        Ok(parts)
    }

    fn weight_at(&self, at: usize) -> usize
        requires { at < length (watches_of self.now) }
        ensures weight { (other : Watch) → result ≡ weight_of (slice_index_or (watches_of self.now) at other) }
        ensures most { result ≤ 4100 }
    {
        let data = self.data_watches.as_slice();
        if at < data.len() {
            return weight_in(data, at);
        }
        let exist = self.exist_watches.as_slice();
        if at - data.len() < exist.len() {
            return weight_in(exist, at - data.len());
        }
        weight_in(self.child_watches.as_slice(), at - data.len() - exist.len())
    }

    fn part(&self, relative: i64, start: usize, end: usize) -> SetWatchesRef<'_>
        requires { start ≤ end }
        ensures relative { result.relative_zxid ≡ relative }
        ensures watches { watches_of (lists_of result) ≡ drop start (take end (watches_of self.now)) }
    {
        let data = self.data_watches.as_slice();
        let exist = self.exist_watches.as_slice();
        let child = self.child_watches.as_slice();
        let before_child = data.len() + exist.len();
        SetWatchesRef {
            relative_zxid: relative,
            data_watches: window(data, start, end),
            exist_watches: window(
                exist,
                start.saturating_sub(data.len()),
                end.saturating_sub(data.len()),
            ),
            child_watches: window(
                child,
                start.saturating_sub(before_child),
                end.saturating_sub(before_child),
            ),
        }
    }
}
