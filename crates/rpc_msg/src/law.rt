//! What is true of all bytes.

ghost use Rattle.rpc_msg.specs.Laws.{HasOneVerdict, HasOneAnswer};

/// A record is one call, or is refused for one reason.
pub fn one_verdict()
    ensures { HasOneVerdict }
{}

/// Bytes are one answer, or none.
pub fn one_answer()
    ensures { HasOneAnswer }
{}
