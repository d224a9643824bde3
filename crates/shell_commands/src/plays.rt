//! What commands make of a script: a history that answers, and a client that is driven by the script alone, against servers in
//! memory, or over connections.

ghost use Rattle.std.proofs.Common.{[], inr, refl};
ghost use Rattle.script_live.specs.Lives as sessions;
ghost use Rattle.script_rehearse.specs.Scripts as rehearsals;
ghost use Rattle.script_replay.specs.Replays as replays;
ghost use Rattle.script_story.specs.Stories as stories;
ghost use Rattle.shell_commands.specs.declared.command.Command.TheVariants as commands;
ghost use Rattle.shell_commands.specs.Scripts.{IsTranscriptOf};

use crate::script::Plays;
use script_live::live::live;
use script_rehearse::rehearse::rehearsed_script;
use script_replay::replay::replayed_script;
use script_story::story::Story;
use script_words::script::{Transcript, read_script};
use std::alloc::Allocator;
use zk_link::Dial;

/// A history that lines make and ask.
#[derive(Drop)]
pub struct ToldHistory;

impl<A: Allocator + Copy> Plays<A> for ToldHistory {
    ghost prints = { IsTranscriptOf commands.History };

    ghost unread = { λ lines.
        record { before = []; behind = lines; are = refl; prints = record { end = stories.first_position; taken = refl } } };

    fn transcript(self, alloc: A, script: &[u8]) -> Transcript<A> {
        let mut story = Story::new(alloc);
        let transcript = read_script(alloc, &mut story, script);
        drop(story);
        transcript
    }
}

/// A client that lines drive.
#[derive(Drop)]
pub struct ReplayedClient;

impl<A: Allocator + Copy> Plays<A> for ReplayedClient {
    ghost prints = { IsTranscriptOf commands.Replay };

    ghost unread = { λ lines.
        record { before = []; behind = lines; are = refl; prints = record { end = replays.first_position; taken = refl } } };

    fn transcript(self, alloc: A, script: &[u8]) -> Transcript<A> {
        replayed_script(alloc, script)
    }
}

/// A client that lines drive against servers in memory, over a history that they tell.
#[derive(Drop)]
pub struct RehearsedClient;

impl<A: Allocator + Copy> Plays<A> for RehearsedClient {
    ghost prints = { IsTranscriptOf commands.Rehearse };

    ghost unread = { λ lines.
        record { before = []; behind = lines; are = refl; prints = record { end = rehearsals.first_position; taken = refl } } };

    fn transcript(self, alloc: A, script: &[u8]) -> Transcript<A> {
        rehearsed_script(alloc, script)
    }
}

/// A client that lines drive over connections to these addresses.
#[derive(Drop)]
pub struct LiveClient<'a, D: Dial> {
    pub dial: &'a mut D,
    pub addresses: &'a [&'a str],
}

impl<'a, A: Allocator + Copy, D: Dial> Plays<A> for LiveClient<'a, D> {
    ghost prints = { sessions.IsTranscript };

    ghost unread = { λ lines. inr (refl, tt) };

    fn transcript(self, alloc: A, script: &[u8]) -> Transcript<A> {
        let LiveClient { dial, addresses } = self;
        live(alloc, dial, addresses, script)
    }
}
