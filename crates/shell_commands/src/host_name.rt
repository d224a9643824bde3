//! Names of hosts: at most 253 bytes, which are labels of 1 to 63 bytes with dots between them. A dot may end the name.

ghost use Rattle.std.specs.Prelude.{◌≡◌, true};
ghost use Rattle.shell_commands.specs.Hosts.{are_labels, grown, is_host_name, is_label_byte, is_named_server, may_follow};

use script_live::address::is_server;
use zk_link::host_of;

/// The most bytes of a name.
const LONGEST_NAME: usize = 253;

/// The most bytes of a label.
const LONGEST_LABEL: u32 = 63;

/// Whether a label may have a byte: a letter, a digit, a hyphen, an underscore; or a colon and a percent sign, which IPv6 addresses have.
fn is_label_byte(byte: u8) -> bool
    ensures { result ≡ is_label_byte byte }
{
    matches!(byte, b'a'..=b'z' | b'A'..=b'Z' | b'0'..=b':' | b'-' | b'_' | b'%')
}

/// Whether a byte may follow this many bytes of a label.
fn may_follow(length: u32, byte: u8) -> bool
    ensures { result ≡ may_follow length byte }
{
    if byte == b'.' {
        length != 0
    } else {
        is_label_byte(byte) && length < LONGEST_LABEL
    }
}

/// How many bytes the label has after a byte.
fn grown(length: u32, byte: u8) -> u32
    requires { may_follow length byte ≡ true }
    ensures { result ≡ grown length byte }
{
    if byte == b'.' { 0 } else { length + 1 }
}

/// Whether bytes are labels with dots between them.
fn are_labels(bytes: &[u8]) -> bool
    ensures { result ≡ are_labels 0 bytes.now }
{
    let mut length = 0;
    for byte in bytes {
        if !may_follow(length, *byte) {
            return false;
        }
        length = grown(length, *byte);
    }
    true
}

/// Whether a host may have a name. Whether there is such a host is not asked.
fn is_host_name(name: &str) -> bool
    ensures { result ≡ is_host_name name.now }
{
    name.len() <= LONGEST_NAME && are_labels(name.as_bytes())
}

/// Whether a word is a server whose host may have its name.
pub(crate) fn is_named_server(word: &str) -> bool
    ensures { result ≡ is_named_server word.now }
{
    match host_of(word) {
        Some(host) => is_server(word) && is_host_name(host.name),
        None => false,
    }
}
