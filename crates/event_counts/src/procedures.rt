//! Which procedures are counted.
ghost use Rattle.std.specs.Prelude.{◌≡◌, ◌+◌, ◌≤◌, ◌<◌, length};
ghost use Rattle.event_counts.specs.Places.{procedure_place, record_place, nlm_place, word_at};

/// The place of what is none of the procedures that are counted.
const OTHER: usize = 79;

/// The lock manager's program, and the status monitor's.
const NLM: u32 = 100_021;

const NSM: u32 = 100_024;

fn nlm_place(version: u32, procedure: u32) -> usize
    requires { procedure < 24 }
    ensures is { result ≡ nlm_place version procedure }
    ensures below { result < 80 }
{
    let procedure = procedure as usize;
    match version {
        1 => procedure,
        3 => 24 + procedure,
        4 => 48 + procedure,
        _ => OTHER,
    }
}

/// The place of a procedure, by the numbers of its program and version, and by its own.
pub fn procedure_place(program: u32, version: u32, procedure: u32) -> usize
    ensures is { result ≡ procedure_place program version procedure }
    ensures below { result < 80 }
{
    if program == NLM && procedure < 24 {
        return nlm_place(version, procedure);
    }
    if program == NSM && version == 1 && procedure < 7 {
        return 72 + procedure as usize;
    }
    OTHER
}

fn word_at(bytes: &[u8], at: usize) -> u32
    requires { at + 4 ≤ length bytes.now }
    ensures { result ≡ word_at bytes.now at }
{
    u32::from_be_bytes([bytes[at], bytes[at + 1], bytes[at + 2], bytes[at + 3]])
}

/// The place of the procedure that a record calls. A record that doesn't begin as a call of RPC version 2 calls none of them.
pub fn record_place(bytes: &[u8]) -> usize
    ensures is { result ≡ record_place bytes.now }
    ensures below { result < 80 }
{
    if bytes.len() < 24 {
        return OTHER;
    }
    if word_at(bytes, 4) != 0 || word_at(bytes, 8) != 2 {
        return OTHER;
    }
    procedure_place(word_at(bytes, 12), word_at(bytes, 16), word_at(bytes, 20))
}
