//! The lines of a file of peers.

ghost use Rattle.std.specs.Prelude.{◌≡◌, ◌<◌, ◌∷◌, eqb, length};
ghost use Rattle.std.specs.List.{list_any};
ghost use Rattle.peers.specs.File.{is_name, lines_of};
ghost use Rattle.peers.specs.Readings.{ReadsLine};

use byte_io::split_once;
use std::net::IpAddr;

/// The first line, without its line feed, and what is behind it.
pub(crate) fn split_line(bytes: &[u8]) -> (&[u8], &[u8])
    requires { 0 < length bytes.now }
    ensures { lines_of bytes.now ≡ result.0.now ∷ lines_of result.1.now }
{
    let (line, behind) = split_once(bytes, b'\n');
    match behind {
        Some(behind) => (line, behind),
        None => (line, &[]),
    }
}

fn has_return(name: &[u8]) -> bool
    ensures { result ≡ list_any (λ b. eqb b 13) name.now }
{
    name.iter().any(|byte| *byte == b'\r')
}

/// Whether it is a name of 1 to 1,024 bytes without carriage return.
fn is_name(name: &[u8]) -> bool
    ensures { result ≡ is_name name.now }
{
    1 <= name.len() && name.len() <= 1_024 && !has_return(name)
}

/// A host's name and its address. None where the line is none of the grammar.
pub(crate) fn read_line(line: &[u8]) -> Option<(&[u8], IpAddr)>
    ensures { ReadsLine line.now result }
{
    let (name, behind) = split_once(line, b' ');
    let Some(text) = behind else {
        return None;
    };
    let (_, more) = split_once(text, b' ');
    if more.is_some() || !is_name(name) {
        return None;
    }
    match IpAddr::parse_ascii(text) {
        Ok(address) => Some((name, address)),
        Err(_) => None,
    }
}
