//! A call of procedure 0.
ghost use Rattle.std.specs.Prelude.{◌≡◌, ◌≤◌, length, IfOk};
ghost use Rattle.caller_reports.specs.Nulls.{IsNull};

use std::alloc::{AllocError, Global};

/// Where the number of the procedure stands in a call, behind xid, message type, RPC version, program and version (RFC 5531,
/// section 9).
const PROCEDURE_AT: usize = 20;

/// The bytes of that number.
const PROCEDURE: [u8; 4] = [0; 4];

/// The record of a call, with procedure 0 in place of its own: NULL, which answers that it was heard and does nothing. A record that
/// is too short to have a procedure stays as it is.
pub fn null_call(alloc: Global, record: &[u8]) -> Result<Vec<u8>, AllocError>
    ensures { IfOk result (λ null. IsNull record.now null.items) }
{
    if record.len() < PROCEDURE_AT + PROCEDURE.len() {
        return Vec::from_slice(alloc, record);
    }
    let mut null = Vec::from_slice(alloc, &record[..PROCEDURE_AT])?;
    null.extend_from_slice(&PROCEDURE)?;
    null.extend_from_slice(&record[PROCEDURE_AT + PROCEDURE.len()..])?;
    Ok(null)
}
