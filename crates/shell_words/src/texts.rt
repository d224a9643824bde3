//! Which bytes are text, and which text may be shown as it is.

ghost use Rattle.std.specs.Prelude.{◌≡◌, chars, MatchOption, true, false};
ghost use Rattle.std.specs.List.{list_any};
ghost use Rattle.std.specs.Str.{is_utf8};
ghost use Rattle.shell_words.specs.Texts.{is_hidden, is_turning};

/// Whether a character turns the direction of what is shown after it, or ends its line there.
pub fn is_turning(c: char) -> bool
    ensures { result ≡ is_turning c }
{
    matches!(c, '\u{61c}' | '\u{200e}'..='\u{200f}' | '\u{2028}'..='\u{202e}' | '\u{2066}'..='\u{2069}')
}

/// Whether a character is a control character other than tab and newline, or turns the direction.
fn is_hidden(c: char) -> bool
    ensures { result ≡ is_hidden c }
{
    matches!(c, '\0'..='\u{8}' | '\u{b}'..='\u{1f}' | '\u{7f}'..='\u{9f}') || is_turning(c)
}

/// Whether a text has such a character.
pub fn has_hidden(text: &str) -> bool
    ensures { result ≡ list_any is_hidden (chars text.now) }
{
    text.chars().any(is_hidden)
}

/// The bytes as text, where they are UTF-8.
pub fn as_utf8(bytes: &[u8]) -> Option<&str>
    ensures { MatchOption result (is_utf8 bytes.now ≡ false) (λ text. (text.now ≡ bytes.now) × (is_utf8 bytes.now ≡ true)) }
{
    match str::from_utf8(bytes) {
        Ok(text) => Some(text),
        Err(_) => None,
    }
}
