//! Servers, by their numbers.

ghost use Rattle.std.specs.Prelude.{◌≤◌};

use script_words::numbers::natural_of;
use script_words::script_fault::ScriptFault;

/// The number of a server, from 1 to 8.
#[derive(Clone, Copy)]
pub struct Server {
    pub number: usize,
    ghost low: { 1 ≤ number },
    ghost high: { number ≤ 8 },
}

impl Server {
    ghost use Rattle.std.specs.Prelude.{◌≡◌};
    ghost use Rattle.script_words.specs.Reads.{Reads};
    ghost use Rattle.script_rehearse.specs.BenchLines.{server_at};

    /// The server whose number a word means.
    #[tactic(auto, unfolding(crate::specs::BenchLines::server_at))]
    pub fn parse(word: &[u8]) -> Result<Server, ScriptFault>
        ensures { Reads (λ server. server.number) result (server_at word.now) }
    {
        let Some(number) = natural_of(word, 9) else {
            return Err(ScriptFault::Number);
        };
        if number == 0 {
            return Err(ScriptFault::Number);
        }
        if number <= 8 {
            let number = number as usize;
            return Ok(Server { number });
        }
        Err(ScriptFault::Number)
    }
}
