//! A gate that is always open.
use bytes::Bytes;
use job_queue::Job;
use reply_outbox::Gate;

/// Holds nobody, and has each call answered as it is.
#[derive(Clone, Copy, Debug)]
pub struct OpenGate;

impl Gate for OpenGate {
    ghost use Rattle.std.specs.Prelude.{false};
    ghost use Rattle.reply_outbox.specs.Gates.{IsOwn};

    ghost holds = { λ _. false };

    ghost MayAnswer = { λ _. IsOwn };

    fn may_hold(&self) -> bool {
        false
    }

    fn before(&self, _job: &Job) -> Option<Bytes> {
        None
    }
}
