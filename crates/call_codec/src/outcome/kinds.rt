//! Which replies are kept (RFC 5531, section 4: retransmitted calls).
ghost use Rattle.std.specs.Prelude.{◌≡◌, ◌&&◌};
ghost use Rattle.definitions.specs.Nlm as nlm;
ghost use Rattle.definitions.specs.Replies.{Nlm};
ghost use Rattle.definitions.specs.Step.{is_success, is_kept_kind};
ghost use Rattle.nlm4_types.specs.Call.{view_of_call as view_of_nlm_call};
ghost use Rattle.call_codec.specs.OutcomeValues.{view_of_outcome};
ghost use Rattle.call_codec.specs.CallValues.{view_of_call};

use crate::outcome::Outcome;
use crate::reading::Call;
use nlm4_types::NlmCall;

/// Whether the reply of such a call is kept: it was done, and it may have changed something.
pub fn is_kept(call: &Call<'_>, outcome: &Outcome) -> bool
    ensures { result ≡ (is_success (view_of_outcome outcome.now) && is_kept_kind (view_of_call call.now)) }
{
    is_done(outcome) && is_of_kept_kind(call)
}

fn is_done(outcome: &Outcome) -> bool
    ensures { result ≡ is_success (view_of_outcome outcome.now) }
{
    matches!(outcome, Outcome::Success(_))
}

fn is_of_kept_kind(call: &Call<'_>) -> bool
    ensures { result ≡ is_kept_kind (view_of_call call.now) }
{
    match call {
        Call::Nlm(_, call) => changes_something(call),
        Call::Nsm(_) => false,
    }
}

// Whether a call of the lock manager is of a kind that may change something, and tells of it.
fn changes_something(call: &NlmCall<'_>) -> bool
    ensures { (version : nlm.Version) → result ≡ is_kept_kind (Nlm version (view_of_nlm_call call.now)) }
{
    match call {
        NlmCall::Null => false,
        NlmCall::Test(_) | NlmCall::TestMsg(_) | NlmCall::GrantedRes(_) => false,
        _ => true,
    }
}
