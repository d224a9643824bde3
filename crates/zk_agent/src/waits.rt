//! What waits for the server's answer on a connection, and since when.

ghost use Rattle.std.specs.Prelude.{◌≡◌, ◌<◌, ◌≤◌, ◌++◌, ◌∷◌, [], drop, length, replicate, take, OnOk};
ghost use Rattle.zk_agent.specs.Waits.{answered_by, end_of, ends_at, heard_byte, heard_bytes, is_of_call, is_of_ping, kept_if};
ghost use Rattle.zk_agent.specs.Waits.{nothing_waits, patience, waited_after, waited_of, with_sent};
ghost use Rattle.zk_agent.specs.inner.Waits.{heard_head};

use crate::frames::{Frames, is_of_call, is_of_ping};
use crate::moments::first_of;
use crate::sent::Sent;
use std::alloc::{AllocError, Allocator};
use std::collections::VecDeque;

/// What waits on a connection: since when calls wait for their replies, and pings for their answers, the oldest first. The request that
/// opens the session counts as a call, and a part of setWatches does not. And where the bytes are that come.
#[derive(Drop)]
pub struct Waits<A: Allocator> {
    pub(crate) came: Frames,
    pub(crate) calls: VecDeque<u64, A>,
    pub(crate) pings: VecDeque<u64, A>,
}

/// How long each may wait, in milliseconds: two thirds of the timeout, and a second at least.
fn patience(timeout_ms: u32) -> u64
    ensures { result ≡ patience timeout_ms }
{
    ((2 * u64::from(timeout_ms) + 2) / 3).max(1_000)
}

/// When the first of these has waited for so long.
fn end_of<A: Allocator>(patience: u64, line: &VecDeque<u64, A>) -> Option<u64>
    ensures { result ≡ end_of patience line.now.items }
{
    match line.front() {
        Some(since) => Some(since.saturating_add(patience)),
        None => None,
    }
}

/// Adds as many that wait from this moment on.
#[inline(always)]
fn add<A: Allocator>(line: &mut VecDeque<u64, A>, count: u64, now: u64) -> Result<(), AllocError>
    ensures { OnOk result (line.new.items ≡ line.old.items ++ replicate count now) }
{
    for _ in 0..count {
        line.push_back(now).map_err(AllocError::from)?;
    }
    Ok(())
}

impl<A: Allocator> Waits<A> {
    /// Nothing waits any more: the connection is over.
    pub(crate) fn clear(&mut self)
        ensures { waited_of self.new ≡ nothing_waits }
    {
        self.came = Frames::new();
        self.calls.clear();
        self.pings.clear();
    }

    /// A frame with this xid has come: the oldest call has its reply, or the oldest ping its answer.
    fn answer(&mut self, xid: Option<u64>)
        ensures came { self.new.came ≡ self.old.came }
        ensures calls { self.new.calls.items ≡ answered_by is_of_call xid self.old.calls.items }
        ensures pings { self.new.pings.items ≡ answered_by is_of_ping xid self.old.pings.items }
    {
        let Some(xid) = xid else {
            return;
        };
        if is_of_call(xid) {
            self.calls.pop_front();
        }
        if is_of_ping(xid) {
            self.pings.pop_front();
        }
    }

    /// A byte came.
    fn read_byte(&mut self, byte: u8)
        ensures { waited_of self.new ≡ heard_byte (waited_of self.old) byte }
    {
        let xid = self.came.read_byte(byte);
        self.answer(xid);
    }

    /// The length and the xid of a frame came.
    fn read_head(&mut self, head: u64)
        ensures { waited_of self.new ≡ heard_head head (waited_of self.old) }
    {
        let xid = self.came.read_head(head);
        self.answer(xid);
    }

    /// Reads the first bytes that came: the length and the xid of a frame, if it begins with them and they have both; else those within a
    /// frame that need not be looked at, and the byte after them. How many it reads.
    fn read_some(&mut self, bytes: &[u8]) -> usize
        requires { 0 < length bytes.now }
        ensures some { 0 < result }
        ensures fits { result ≤ length bytes.now }
        ensures heard { waited_of self.new ≡ heard_bytes (waited_of self.old) (take result bytes.now) }
    {
        if let Some(head) = self.came.head_in(bytes) {
            self.read_head(head);
            return 8;
        }
        let passed = self.came.pass(bytes.len() as u64) as usize;
        self.read_byte(bytes[passed]);
        passed + 1
    }

    /// Bytes came, with which calls and pings may have their answers. It looks at the first eight of each frame, and at its last one.
    pub(crate) fn read_bytes(&mut self, bytes: &[u8])
        ensures { waited_of self.new ≡ heard_bytes (waited_of self.old) bytes.now }
    {
        let mut at = 0usize;
        while at < bytes.len() {
            let count = self.read_some(&bytes[at..]);
            at += count;
        }
    }

    /// Of a connection that is over nothing waits.
    fn keep(&mut self, is_over: bool)
        ensures { waited_of self.new ≡ kept_if is_over (waited_of self.old) }
    {
        if is_over {
            self.clear();
        }
    }

    /// What was sent at this moment waits.
    pub(crate) fn send(&mut self, now: u64, sent: Sent) -> Result<(), AllocError>
        ensures { OnOk result (waited_of self.new ≡ waited_after now sent (waited_of self.old)) }
    {
        self.keep(sent.is_over);
        add(&mut self.calls, sent.calls, now)?;
        add(&mut self.pings, sent.pings, now)
    }

    /// When the connection is to be given up, unless an answer comes, whatever else the server sends.
    pub(crate) fn ends_at(&self, timeout_ms: u32) -> Option<u64>
        ensures { result ≡ ends_at timeout_ms (waited_of self.now) }
    {
        let patience = patience(timeout_ms);
        first_of(end_of(patience, &self.calls), end_of(patience, &self.pings))
    }
}

impl<A: Allocator + Copy> Waits<A> {
    /// Nothing waits.
    pub(crate) fn new(alloc: A) -> Waits<A>
        ensures { waited_of result ≡ nothing_waits }
    {
        Waits {
            came: Frames::new(),
            calls: VecDeque::new(alloc),
            pings: VecDeque::new(alloc),
        }
    }
}
