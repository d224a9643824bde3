//! The two directions of a connection.

ghost use Rattle.std.specs.Prelude.{◌≡◌};
ghost use Rattle.script_stream.specs.Ways.{way_mark, way_of};

use script_words::reads::is_named;

/// Who sent.
#[derive(Clone, Copy)]
pub enum Way {
    Client,
    Server,
}

impl Way {
    /// The direction that a word names.
    pub fn named(word: &[u8]) -> Option<Way>
        ensures { result ≡ way_of word.now }
    {
        if is_named(word, ">") {
            Some(Way::Client)
        } else if is_named(word, "<") || is_named(word, "bytes") {
            Some(Way::Server)
        } else {
            None
        }
    }

    /// What stands before a line: `>` for what the client sent, `<` for what the server sent.
    pub fn mark(self) -> &'static str
        ensures { result.now ≡ way_mark self }
    {
        match self {
            Way::Client => ">",
            Way::Server => "<",
        }
    }
}
