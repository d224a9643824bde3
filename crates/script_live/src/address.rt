//! Addresses: four numbers from 0 to 255, joined by dots, a colon and a port. And servers: a host and a port.

ghost use Rattle.std.specs.Prelude.{◌≡◌};
ghost use Rattle.script_live.specs.Addresses.{are_four, are_three, are_two, is_address, is_name, is_part, is_port, is_server};

use script_words::numbers::natural_of;
use zk_link::host_of;

/// Whether a word is a number from 0 to 255, in decimal without leading zeros.
fn is_part(word: &str) -> bool
    ensures { result ≡ is_part word.now }
{
    natural_of(word.as_bytes(), 255).is_some()
}

/// Whether a word is a number from 1 to 65,535, in decimal without leading zeros.
fn is_port(word: &str) -> bool
    ensures { result ≡ is_port word.now }
{
    match natural_of(word.as_bytes(), 65_535) {
        Some(port) => port != 0,
        None => false,
    }
}

fn are_two(text: &str) -> bool
    ensures { result ≡ are_two text.now }
{
    match text.split_once('.') {
        Some((first, behind)) => is_part(first) && is_part(behind),
        None => false,
    }
}

fn are_three(text: &str) -> bool
    ensures { result ≡ are_three text.now }
{
    match text.split_once('.') {
        Some((first, behind)) => is_part(first) && are_two(behind),
        None => false,
    }
}

/// Whether a text is four such numbers, joined by dots.
fn are_four(text: &str) -> bool
    ensures { result ≡ are_four text.now }
{
    match text.split_once('.') {
        Some((first, behind)) => is_part(first) && are_three(behind),
        None => false,
    }
}

/// Whether a text is an address: four numbers from 0 to 255, joined by dots, a colon and a port from 1 to 65,535, all in decimal
/// without leading zeros.
pub fn is_address(text: &str) -> bool
    ensures { result ≡ is_address text.now }
{
    match text.split_once(':') {
        Some((host, port)) => are_four(host) && is_port(port),
        None => false,
    }
}

/// Whether a word may be the name of a host, or its address in numbers: it is not empty, and has no space, comma, slash or opening
/// bracket. Whether there is such a host is not asked.
fn is_name(word: &str) -> bool
    ensures { result ≡ is_name word.now }
{
    !word.is_empty()
        && word.split_once(' ').is_none()
        && word.split_once(',').is_none()
        && word.split_once('/').is_none()
        && word.split_once('[').is_none()
}

/// Whether a text is a server: a name, an IPv4 address, or an IPv6 address in brackets; then a colon and a port from 1 to 65,535
/// in decimal without leading zeros, or nothing, which means the port 2181.
pub fn is_server(text: &str) -> bool
    ensures { result ≡ is_server text.now }
{
    match host_of(text) {
        Some(host) => is_name(host.name) && is_port(host.port),
        None => false,
    }
}
