//! Where a server is, in words: a host and a port.

ghost use Rattle.std.specs.Prelude.{◌≡◌, ◌<◌, Some, option_map};
ghost use Rattle.zk_link.specs.Hosts.{host_of, parted, port_behind, second, with_port, with_usual};

/// The port of a host that names none.
const USUAL_PORT: &str = "2181";

/// A host and its port, as they are written.
#[derive(Clone, Copy)]
pub struct Host<'a> {
    /// A name, or an address in numbers without brackets.
    pub name: &'a str,
    pub port: &'a str,
}

/// What follows a character, where nothing is before it.
fn behind(text: &str, first: char) -> Option<&str>
    requires { first < 128 }
    ensures { option_map (λ t. t.now) result ≡ second (parted first text.now) }
{
    match text.split_once(first) {
        Some((front, behind)) if front.is_empty() => Some(behind),
        _ => None,
    }
}

/// The port after brackets: after a colon, or the usual one where nothing follows them.
fn port_behind(text: &str) -> Option<&str>
    ensures { option_map (λ t. t.now) result ≡ port_behind text.now }
{
    if text.is_empty() {
        return Some(USUAL_PORT);
    }
    behind(text, ':')
}

/// The host of what stands before a closing bracket and after it.
fn in_brackets<'a>(front: &'a str, after: &'a str) -> Option<Host<'a>>
    ensures { option_map (λ h. (h.name.now, h.port.now)) result ≡ with_port (second (parted 91 front.now)) (port_behind after.now) }
{
    let name = behind(front, '[')?;
    let port = port_behind(after)?;
    Some(Host { name, port })
}

/// A name, and the port after its colon, or the usual one where there is no colon.
fn named(text: &str) -> Host<'_>
    ensures { Some (result.name.now, result.port.now) ≡ with_usual text.now (parted 58 text.now) }
{
    match text.split_once(':') {
        Some((name, port)) => Host { name, port },
        None => Host {
            name: text,
            port: USUAL_PORT,
        },
    }
}

/// The host of a text: a name or an IPv4 address, or an IPv6 address in brackets. A colon and the port follow it, or nothing where the
/// port is 2181. Whether there is such a host, and whether the port is a number, is not looked at.
pub fn host_of(text: &str) -> Option<Host<'_>>
    ensures { option_map (λ h. (h.name.now, h.port.now)) result ≡ host_of text.now }
{
    match text.split_once(']') {
        Some((front, after)) => in_brackets(front, after),
        None => Some(named(text)),
    }
}
