//! A lock between sessions, by the recipe of ZooKeeper: each makes an ephemeral sequential node, and the one with the first number holds.
//! Each other one watches the node before its own alone. The holder acts with a token, the zxid at which its node was made, and what the
//! lock protects refuses a token below one that it has taken. So a session that has lost the lock and does not know it yet does no harm.

use crate::Program;
use anyhow::Result;
use std::alloc::Global;
use std::io::Write;
use zk_client::{Client, Outcome, Path, State};
use zk_contend::{LockContender, LockStatus, Naming};
use zk_driver::{Action, Driver};
use zk_fence::Fence;
use zk_link::{Clock, Dial};

/// How long leaving may take, in milliseconds.
const LEAVE_MS: u64 = 2_000;

/// A session that wants the lock of a directory, holds it for a while, and leaves.
#[derive(Drop)]
pub struct Lock<'a> {
    alloc: Global,
    name: &'a str,
    hold_ms: u64,
    contender: LockContender,
    // The moment at which it leaves, once it has held.
    leave_at: u64,
    // That of the call that is under way.
    ticket: u64,
    is_leaving: bool,
    is_over: bool,
    // The words that were told last, and their token.
    told: (&'static str, i64),
}

impl<'a> Lock<'a> {
    /// A session that is to hold the lock of the directory for this many milliseconds, and to leave it then. Its nodes are named for it, as
    /// those of kazoo if the marker is `__lock__`, and else as Curator's.
    pub fn new(
        alloc: Global,
        name: &'a str,
        marker: &str,
        directory: Path,
        hold_ms: u64,
    ) -> Result<Lock<'a>> {
        let naming = if marker == "__lock__" {
            Naming::Kazoo
        } else {
            Naming::CuratorLock
        };
        Ok(Lock {
            alloc,
            name,
            hold_ms,
            contender: LockContender::new(alloc, directory, naming, name, None, None, false)?,
            leave_at: u64::MAX,
            ticket: 0,
            is_leaving: false,
            is_over: false,
            told: ("", 0),
        })
    }

    /// Asks what is due, one call at a time.
    fn ask<D: Dial + Drop, C: Clock + Drop>(
        &mut self,
        driver: &mut Driver<'_, Global, D, C>,
    ) -> Result<()> {
        let now = driver.now();
        match self.contender.next(driver.client(), now)? {
            Some(call) => {
                self.ticket = self.ticket.saturating_add(1);
                driver.ask(self.ticket, call, None).map_err(From::from)
            }
            None => Ok(()),
        }
    }

    /// Hears the outcome of a call, if it is the one that is under way.
    fn hear(&mut self, client: &Client, now: u64, ticket: u64, outcome: Outcome) -> Result<()> {
        if ticket != self.ticket {
            return Ok(());
        }
        self.contender
            .hear(client, now, outcome)
            .map_err(From::from)
    }

    /// Takes in what happens.
    fn apply_action<D: Dial + Drop, C: Clock + Drop, W: Write>(
        &mut self,
        driver: &mut Driver<'_, Global, D, C>,
        action: Action,
        out: &mut W,
    ) -> Result<()> {
        let now = driver.now();
        match action {
            Action::Answer { ticket, outcome } => {
                self.hear(driver.client(), now, ticket, outcome)
            }
            Action::Report { path, event, .. } => {
                self.contender.note(path.as_str(), event);
                Ok(())
            }
            Action::State(State::Expired) => self.print_line("has lost its session", 0, out),
            Action::Renewed => {
                self.contender.renew();
                self.ticket = self.ticket.saturating_add(1);
                Ok(())
            }
            _ => Ok(()),
        }
    }

    /// Once it has held for long enough it leaves, and does not wait for long.
    fn leave<W: Write>(&mut self, now: u64, out: &mut W) -> Result<()> {
        if self.leave_at.saturating_add(LEAVE_MS) <= now {
            self.is_over = true;
            return self.print_line("leaves its node to expire", 0, out);
        }
        if !self.is_leaving && self.leave_at <= now {
            self.is_leaving = true;
            self.contender.give_up();
            return self.print_line("leaves", 0, out);
        }
        Ok(())
    }

    /// Says how the session stands, and writes to the store, if it shows that it holds.
    fn work<W: Write>(
        &mut self,
        now: u64,
        client: &Client,
        store: &mut Fence,
        out: &mut W,
    ) -> Result<()> {
        match self.contender.stands(client) {
            LockStatus::GivenUp => self.is_over = true,
            LockStatus::Waits => return self.print_line("waits", 0, out),
            LockStatus::Holds { token } => {
                self.leave_at = self.leave_at.min(now.saturating_add(self.hold_ms));
                let words = if store.admit(token) {
                    "holds"
                } else {
                    "is refused with"
                };
                return self.print_line(words, token, out);
            }
            _ => {}
        }
        Ok(())
    }

    /// The next moment at which it has something to do by itself.
    fn deadline(&self) -> u64 {
        if self.is_leaving {
            return self.leave_at.saturating_add(LEAVE_MS);
        }
        self.leave_at
    }

    /// Says something of the session, in one write, if that is not what was said last.
    fn print_line<W: Write>(&mut self, words: &'static str, token: i64, out: &mut W) -> Result<()> {
        if (words, token) == self.told {
            return Ok(());
        }
        self.told = (words, token);
        let name = self.name;
        let line = if token == 0 {
            format!(in self.alloc; "{name} {words}\n")
        } else {
            format!(in self.alloc; "{name} {words} {token}\n")
        }?;
        out.write_all(line.as_str().as_bytes()).map_err(From::from)
    }
}

impl<'a> Program for Lock<'a> {
    fn act<D: Dial + Drop, C: Clock + Drop, W: Write>(
        &mut self,
        driver: &mut Driver<'_, Global, D, C>,
        until: u64,
        store: &mut Fence,
        out: &mut W,
    ) -> Result<()> {
        for _ in 0..u64::MAX {
            let now = driver.now();
            self.leave(now, out)?;
            self.work(now, driver.client(), store, out)?;
            if self.is_over {
                break;
            }
            self.ask(driver)?;
            let moment = until.min(self.deadline());
            match driver.next(moment)? {
                Some(action) => self.apply_action(driver, action, out)?,
                None if moment == until => break,
                None => {}
            }
        }
        Ok(())
    }
}
