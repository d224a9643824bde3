//! Paths of the data tree, from their texts.

ghost use Rattle.std.specs.Prelude.{◌≡◌, ◌≢◌, ◌≤◌, ◌<◌, ◌↔◌, ℕ, [], ◌∷◌, IsTrue, IfOk, IfErr, IfSome, OnOk, Some, None, length, not};
ghost use Rattle.std.specs.Prelude.{slice_index, string_bytes};
ghost use Rattle.std.specs.Option.{option_copied, option_map};
ghost use Rattle.std.specs.Str.{IsAscii, IsUtf8};
ghost use Rattle.zk_nodes.specs.Path.{path_eq, path_of, IsPathText, child_text, has_no_slash, parent_of, parent_text, name_of};
ghost use Rattle.zk_nodes.specs.inner.Path.{is_below};
ghost use Rattle.zk_nodes.specs.PathFault.{child_fault, fault_of, fault_of_names, fault_told, is_refused, IsPath};

use crate::path_fault::PathFault;
use crate::plain::is_plain;
use std::alloc::{AllocError, Allocator, Global};
use std::marker::Model;
use zk_limits::LONGEST_PATH;

/// The path of a node: `/` for the root, else a `/` before each name. It has at most 4,096 bytes, and no name of it
/// is empty, `.` or `..` (Programmer's Guide, "The ZooKeeper Data Model"). It is seen as its text.
#[derive(Drop)]
pub struct Path<A: Allocator = Global> {
    text: String<A>,
}

impl<A: Allocator> Model for Path<A> {
    ghost use Rattle.std.specs.String.{string_bytes};
    ghost use Rattle.zk_nodes.specs.Path.{Text};
    ghost use Rattle.zk_nodes.specs.PathFault.{IsPath};

    ghost Value = { Text };

    ghost view = { λ p. string_bytes p.text };

    ghost invariant = { λ p. IsPath (string_bytes p.text) };
}

fn is_refused(c: char) -> bool
    ensures { result ≡ is_refused c }
{
    matches!(c, '\0'..='\u{1f}' | '\u{7f}'..='\u{9f}' | '\u{e000}'..='\u{f8ff}' | '\u{fff0}'..)
}

// The first fault of the names of a text that begins with a slash.
fn name_fault(text: &[u8]) -> Option<PathFault>
    requires slash { slice_index text.now 0 ≡ 47 }
    requires some { 0 < length text.now }
    ensures { result ≡ fault_of_names (path_of text.now) }
{
    if text.len() == 1 {
        return None;
    }
    let mut length = 0usize;
    let mut dots = true;
    let mut dotted = false;
    for b in &text[1..] {
        if *b == b'/' {
            if length == 0 {
                return Some(PathFault::EmptyName);
            }
            dotted = dotted || (dots && length <= 2);
            length = 0;
            dots = true;
        } else {
            dots = dots && *b == b'.';
            length += 1;
        }
    }
    if length == 0 {
        return Some(PathFault::EmptyName);
    }
    if dotted || (dots && length <= 2) {
        return Some(PathFault::DotName);
    }
    None
}

/// The first fault of a text, if it is no path's. It takes no memory.
pub fn text_fault(text: &str) -> Option<PathFault>
    ensures { result ≡ fault_of text.now }
{
    if text.is_empty() {
        return Some(PathFault::Empty);
    }
    if text.len() > LONGEST_PATH {
        return Some(PathFault::TooLong);
    }
    if text.as_bytes()[0] != b'/' {
        return Some(PathFault::NoSlashFirst);
    }
    if is_plain(text.as_bytes()) {
        return None;
    }
    if text.chars().any(is_refused) {
        return Some(PathFault::BadCharacter);
    }
    name_fault(text.as_bytes())
}

// Whether these bytes are plainly a path's. Those of which it says no may be a path's all the same.
fn is_plain_path(bytes: &[u8]) -> bool
    ensures ascii { IsTrue result → IsAscii bytes.now }
    ensures path { IsTrue result → IsPath bytes.now }
{
    if bytes.is_empty() || bytes.len() > LONGEST_PATH {
        return false;
    }
    bytes[0] == b'/' && is_plain(bytes)
}

// The text of bytes that are ASCII, with memory of its own.
fn ascii_text<A: Allocator>(alloc: A, bytes: &[u8]) -> Result<String<A>, AllocError>
    requires { IsAscii bytes.now }
    ensures { IfOk result (λ text. string_bytes text ≡ bytes.now) }
{
    // ASCII is UTF-8, as the `requires` says.
    let text = unsafe { std::str::from_utf8_unchecked(bytes) };
    String::from_str(alloc, text)
}

// The place of the last slash.
fn last_slash(bytes: &[u8]) -> usize
    requires slash { slice_index bytes.now 0 ≡ 47 }
    requires some { 0 < length bytes.now }
    ensures within { result < length bytes.now }
    ensures slash { slice_index bytes.now result ≡ 47 }
    ensures last { (k : ℕ) → result < k → k < length bytes.now → slice_index bytes.now k ≢ 47 }
{
    let mut last = 0usize;
    for (i, b) in bytes.iter().enumerate() {
        if *b == b'/' {
            last = i;
        }
    }
    last
}

// How many bytes the text of a child has.
fn child_len(above: &str, name: &str) -> usize
    requires { IsPath above.now }
    ensures { result ≡ length (child_text above.now name.now) }
{
    if above.len() == 1 {
        1 + name.len()
    } else {
        above.len() + 1 + name.len()
    }
}

// Why the path of a text has no child of this name.
fn child_fault(above: &str, name: &str) -> Option<PathFault>
    requires { IsPath above.now }
    ensures { result ≡ child_fault above.now name.now }
{
    if name.as_bytes().contains(&b'/') {
        return Some(PathFault::SlashInName);
    }
    if name.is_empty() {
        return Some(PathFault::EmptyName);
    }
    if child_len(above, name) > LONGEST_PATH {
        return Some(PathFault::TooLong);
    }
    if name.chars().any(is_refused) {
        return Some(PathFault::BadCharacter);
    }
    if name == "." || name == ".." {
        return Some(PathFault::DotName);
    }
    None
}

// The text of the child with this name of the path of a text.
fn child_text<A: Allocator>(alloc: A, above: &str, name: &str) -> Result<String<A>, AllocError>
    requires { IsPath above.now }
    ensures { IfOk result (λ text. string_bytes text ≡ child_text above.now name.now) }
{
    // One block of memory, with no room that stays empty where the path is kept.
    let most = above.len().saturating_add(name.len()).saturating_add(1);
    let mut text = String::with_capacity(alloc, most)?;
    text.push_str(above)?;
    if above.len() > 1 {
        text.push_str("/")?;
    }
    text.push_str(name)?;
    Ok(text)
}

impl<A: Allocator> Path<A> {
    /// The path of a text, or the first fault of the text; that memory ran out is told of a text with no fault alone.
    pub fn new(alloc: A, text: &str) -> Result<Path<A>, PathFault>
        ensures path { IfOk result (λ path. path ≡ text.now) }
        ensures accepted { OnOk result (IsPath text.now) }
        ensures refused { IfErr result (λ fault. fault_of text.now ≡ fault_told fault) }
    {
        if let Some(fault) = text_fault(text) {
            return Err(fault);
        }
        Ok(Path {
            text: String::from_str(alloc, text)?,
        })
    }

    /// The path whose text these bytes are, as [`Path::new`] tells it; none where they are no UTF-8. Bytes that are plainly a path's
    /// are gone over once.
    pub fn from_utf8(alloc: A, bytes: &[u8]) -> Option<Result<Path<A>, PathFault>>
        ensures path { IfSome result (λ made. IfOk made (λ path. path ≡ bytes.now)) }
        ensures accepted { IfSome result (λ made. OnOk made (IsPath bytes.now)) }
        ensures refused { IfSome result (λ made. IfErr made (λ fault. fault_of bytes.now ≡ fault_told fault)) }
        ensures text { IfSome result (λ _. IsUtf8 bytes.now) }
        ensures none { result ≡ None → ¬ (IsUtf8 bytes.now) }
    {
        if is_plain_path(bytes) {
            return Some(Path::of_plain(alloc, bytes));
        }
        match std::str::from_utf8(bytes) {
            Ok(text) => Some(Path::new(alloc, text)),
            Err(_) => None,
        }
    }

    // The path of these bytes.
    fn of_plain(alloc: A, bytes: &[u8]) -> Result<Path<A>, PathFault>
        requires ascii { IsAscii bytes.now }
        requires path { IsPath bytes.now }
        ensures path { IfOk result (λ path. path ≡ bytes.now) }
        ensures refused { IfErr result (λ fault. fault_told fault ≡ None) }
    {
        Ok(Path {
            text: ascii_text(alloc, bytes)?,
        })
    }

    /// The path's text.
    pub fn as_str(&self) -> &str
        ensures text { result.now ≡ self.now }
        ensures path { IsPath self.now }
        ensures short { length self.now ≤ LONGEST_PATH }
        ensures absolute { IsPathText self.now }
    {
        self.text.as_str()
    }

    /// The path's text, for who keeps it: it takes no memory.
    pub fn into_text(self) -> String<A>
        ensures { string_bytes result ≡ self }
    {
        self.text
    }

    /// The text of the path's parent, and none for the root.
    pub fn parent(&self) -> Option<&str>
        ensures text { option_copied result ≡ parent_text self.now }
        ensures names { option_map path_of (option_copied result) ≡ parent_of (path_of self.now) }
        ensures path { IfSome result (λ text. IsPath text.now) }
    {
        let text = self.as_str();
        if text.len() == 1 {
            return None;
        }
        let cut = last_slash(text.as_bytes());
        if cut == 0 {
            return Some("/");
        }
        Some(&text[..cut])
    }

    /// The path of the child with this name: this path's text, a `/` unless it is the root, and the name. There is none where
    /// the name has a slash (`SlashInName`), else where it is empty (`EmptyName`), else where that text has a fault: the one that
    /// [`Path::new`] tells of it. That memory ran out is told only where there is such a child.
    pub fn join(&self, alloc: A, name: &str) -> Result<Path<A>, PathFault>
        ensures path { IfOk result (λ path. path ≡ child_text self.now name.now) }
        ensures parent { IfOk result (λ path. parent_of (path_of path) ≡ Some (path_of self.now)) }
        ensures name { IfOk result (λ path. name_of (path_of path) ≡ Some name.now) }
        ensures accepted { OnOk result (child_fault self.now name.now ≡ None) }
        ensures refused { IfErr result (λ fault. child_fault self.now name.now ≡ fault_told fault) }
    {
        let above = self.as_str();
        if let Some(fault) = child_fault(above, name) {
            return Err(fault);
        }
        Ok(Path {
            text: child_text(alloc, above, name)?,
        })
    }

    /// The last name of the path, and none for the root.
    pub fn name(&self) -> Option<&str>
        ensures { option_copied result ≡ name_of (path_of self.now) }
    {
        let text = self.as_str();
        if text.len() == 1 {
            return None;
        }
        let cut = last_slash(text.as_bytes());
        Some(&text[cut + 1..])
    }

    /// Whether the path is the root's.
    pub fn is_root(&self) -> bool
        ensures root { IsTrue result ↔ (path_of self.now ≡ []) }
        ensures text { IsTrue result ↔ (self.now ≡ 47 ∷ []) }
    {
        self.as_str().len() == 1
    }
}

impl<A: Allocator> PartialEq for Path<A> {
    ghost use Rattle.std.specs.Prelude.{bytes_eq};
    ghost use Rattle.std.specs.Cmp;
    ghost use Rattle.std.specs.Cmp.Lexicographic.{nat_list_eq_equiv};

    ghost eq = { bytes_eq };

    ghost laws = { Cmp.partial_equiv_from_equiv nat_list_eq_equiv };

    fn eq(&self, other: &Path<A>) -> bool {
        self.as_str() == other.as_str()
    }
}

impl<A: Allocator> Eq for Path<A> {
    ghost use Rattle.std.specs.Cmp.Lexicographic.{nat_list_eq_equiv};

    ghost laws = { nat_list_eq_equiv };
}
