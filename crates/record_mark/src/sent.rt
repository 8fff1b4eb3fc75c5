//! What is sent.

ghost use Rattle.std.specs.Prelude.{◌≡◌, ◌<◌, ◌^◌};
ghost use Rattle.record_mark.specs.Sent.{mark_of_last};

/// The mark before a message of so many bytes that is sent as one fragment, its record's last.
pub fn last_mark(len: u32) -> [u8; 4]
    requires { len < 2 ^ 31 }
    ensures { result ≡ mark_of_last len }
{
    ((1 << 31) + len).to_be_bytes()
}
