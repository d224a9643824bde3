//! What a command asks of one node.

ghost use Rattle.std.specs.Prelude.{◌≡◌, ◌≢◌, IfSome, IfNone};
ghost use Rattle.shell_commands.specs.Asks.{verb_word};

/// What a command asks of one node.
#[derive(Clone, Copy)]
pub enum Verb {
    /// Its data.
    Get,
    /// The names below it.
    List,
    /// Its Stat.
    Stat,
    /// That it has other data.
    Set,
    /// That it is made.
    Create,
    /// That it is deleted.
    Delete,
}

impl Verb {
    /// The verb of the command with this name.
    pub fn named(word: &str) -> Option<Verb>
        ensures some { IfSome result (λ verb. word.now ≡ verb_word verb) }
        ensures none { IfNone result ((verb : Verb) → word.now ≢ verb_word verb) }
    {
        match word {
            "get" => Some(Verb::Get),
            "ls" => Some(Verb::List),
            "stat" => Some(Verb::Stat),
            "set" => Some(Verb::Set),
            "create" => Some(Verb::Create),
            "delete" => Some(Verb::Delete),
            _ => None,
        }
    }
}
