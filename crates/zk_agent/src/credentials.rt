//! The credentials of an agent.

ghost use Rattle.std.specs.Prelude.{◌≡◌, ◌++◌, ◌∷◌, [], false, true, drop, length, map, nat_lt, OnOk};
ghost use Rattle.zk_agent.specs.Credentials.{all_written, judged_by, judged_in, judging_where, no_papers, papers_of, unwritten};
ghost use Rattle.zk_agent.specs.inner.Credentials.{verdicts_of};
ghost use Rattle.zk_agent.specs.Telling.{told_by, Introduces, judged_told};

use crate::action::{Action, push};
use crate::answering::Answering;
use crate::credential::Credential;
use std::alloc::{AllocError, Allocator};

/// The credentials of an agent in the order in which they were handed in: how many of them were written on the connection that is there,
/// how many of these the server has answered, and the last four bytes that were looked through.
#[derive(Drop)]
pub struct Credentials<A: Allocator> {
    pub(crate) all: Vec<Credential<A>, A>,
    pub(crate) written: usize,
    pub(crate) answered: usize,
    pub(crate) last: u32,
}

/// Tells which were answered, and with which codes.
fn push_judged<A: Allocator>(
    judged: &[(usize, i32)],
    actions: &mut Vec<Action<A>, A>,
) -> Result<(), AllocError>
    ensures { OnOk result (told_by actions.new.items ≡ told_by actions.old.items ++ map judged_told judged.now) }
{
    for one in judged {
        let (place, code) = *one;
        push(actions, Action::Credential { place, code })?;
    }
    Ok(())
}

/// Has these credentials written.
fn push_frames<A: Allocator + Copy>(
    alloc: A,
    all: &[Credential<A>],
    actions: &mut Vec<Action<A>, A>,
) -> Result<(), AllocError>
    ensures { OnOk result (told_by actions.new.items ≡ told_by actions.old.items ++ map (λ c. Introduces c.frame.items) all.now) }
{
    for one in all {
        push(actions, Action::Introduce(one.copy(alloc)?))?;
    }
    Ok(())
}

impl<A: Allocator> Credentials<A> {
    /// Whether one was written whose answer has not come.
    fn is_awaited(&self) -> bool
        ensures { result ≡ nat_lt self.now.answered self.now.written }
    {
        self.answered < self.written
    }

    /// Whether each was written on the connection.
    pub(crate) fn are_written(&self) -> bool
        ensures { result ≡ true → (papers_of self.now).written ≡ length (papers_of self.now).frames }
    {
        self.written == self.all.len()
    }

    /// One more is kept.
    pub(crate) fn add(&mut self, credential: Credential<A>) -> Result<(), AllocError>
        ensures { OnOk result
            (papers_of self.new ≡ record (papers_of self.old) { frames = (papers_of self.old).frames ++ credential.frame.items ∷ [] }) }
    {
        self.all.push(credential).map_err(AllocError::from)
    }

    /// With this code the server answers the first that has no answer, if there is one.
    fn judge(
        &mut self,
        code: Option<i32>,
        judged: &mut Vec<(usize, i32), A>,
    ) -> Result<(), AllocError>
        ensures verdicts { OnOk result
            (verdicts_of self.new judged.new.items ≡ judged_by self.old.written code (verdicts_of self.old judged.old.items)) }
        ensures same { self.new ≡ record self.old { answered = self.new.answered } }
    {
        let Some(code) = code else {
            return Ok(());
        };
        if self.is_awaited() {
            let one = (self.answered, code);
            judged.push(one).map_err(AllocError::from)?;
            self.answered += 1;
        }
        Ok(())
    }

    /// Looks through bytes for answers.
    fn read_bytes(
        &mut self,
        at: Answering,
        bytes: &[u8],
        judged: &mut Vec<(usize, i32), A>,
    ) -> Result<(), AllocError>
        ensures verdicts { OnOk result (verdicts_of self.new judged.new.items
            ≡ (judged_in self.old.written (at, verdicts_of self.old judged.old.items) bytes.now).1) }
        ensures last { OnOk result
            (self.new.last ≡ (judged_in self.old.written (at, verdicts_of self.old judged.old.items) bytes.now).0.last) }
        ensures all { self.new.all ≡ self.old.all }
        ensures written { self.new.written ≡ self.old.written }
    {
        let mut at = at;
        for byte in bytes {
            let code = at.read_byte(*byte);
            self.judge(code, judged)?;
        }
        self.last = at.last;
        Ok(())
    }

    /// Notes what bytes answer that come at this place, if an answer is awaited.
    pub(crate) fn hear(
        &mut self,
        at: Answering,
        bytes: &[u8],
        judged: &mut Vec<(usize, i32), A>,
    ) -> Result<(), AllocError>
        ensures verdicts { OnOk result (verdicts_of self.new judged.new.items
            ≡ (judging_where (nat_lt self.old.answered self.old.written) self.old.written (at, verdicts_of self.old judged.old.items)
            bytes.now).1) }
        ensures last { at.last ≡ self.old.last → OnOk result (self.new.last
            ≡ (judging_where (nat_lt self.old.answered self.old.written) self.old.written (at, verdicts_of self.old judged.old.items)
            bytes.now).0.last) }
        ensures all { self.new.all ≡ self.old.all }
        ensures written { self.new.written ≡ self.old.written }
    {
        if self.is_awaited() {
            return self.read_bytes(at, bytes, judged);
        }
        Ok(())
    }

    /// There is no connection on which they were written.
    fn begin_again(&mut self)
        ensures { papers_of self.new ≡ all_written false (papers_of self.old) }
    {
        self.written = 0;
        self.answered = 0;
        self.last = 0;
    }
}

impl<A: Allocator + Copy> Credentials<A> {
    /// None.
    pub(crate) fn new(alloc: A) -> Credentials<A>
        ensures { papers_of result ≡ no_papers }
    {
        Credentials {
            all: Vec::new(alloc),
            written: 0,
            answered: 0,
            last: 0,
        }
    }

    /// Those that were not written on the connection.
    fn unwritten(&self) -> &[Credential<A>]
        ensures { result.now ≡ drop self.now.written self.now.all.items }
    {
        let all = self.all.as_slice();
        &all[self.written.min(all.len())..]
    }

    /// Has those written that were not yet written on the connection.
    fn write_all(&mut self, alloc: A, actions: &mut Vec<Action<A>, A>) -> Result<(), AllocError>
        ensures told { OnOk result
            (told_by actions.new.items ≡ told_by actions.old.items ++ map Introduces (unwritten true (papers_of self.old))) }
        ensures papers { OnOk result (papers_of self.new ≡ all_written true (papers_of self.old)) }
    {
        push_frames(alloc, self.unwritten(), actions)?;
        self.written = self.all.len();
        Ok(())
    }

    /// Tells which were answered, and has those written that were not yet written on the connection, if there is one.
    pub(crate) fn tell(
        &mut self,
        alloc: A,
        is_open: bool,
        judged: &[(usize, i32)],
        actions: &mut Vec<Action<A>, A>,
    ) -> Result<(), AllocError>
        ensures told { OnOk result (told_by actions.new.items
            ≡ (told_by actions.old.items ++ map judged_told judged.now) ++ map Introduces (unwritten is_open (papers_of self.old))) }
        ensures papers { OnOk result (papers_of self.new ≡ all_written is_open (papers_of self.old)) }
    {
        push_judged(judged, actions)?;
        if is_open {
            return self.write_all(alloc, actions);
        }
        self.begin_again();
        Ok(())
    }
}
