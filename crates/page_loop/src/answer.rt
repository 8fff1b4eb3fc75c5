//! What a request is answered.
ghost use Rattle.std.specs.Prelude.{◌≡◌, ◌++◌, length, IfOk, IfErr};
ghost use Rattle.byte_io.specs.Written.{Wrote};
ghost use Rattle.std.specs.Io.KnownBytes.{Keeps};
ghost use Rattle.status_pages.specs.Responses.{head_text, response_text};
ghost use Rattle.page_loop.specs.Answers.{type_of, FitsAsked, FitsRefusal, IsNote, body_of, sent_of};
ghost use Rattle.page_loop.specs.Talks.{Writes};

use crate::ending::PagesEnding;
use crate::pages::Pages;
use byte_io::{WriteFault, write_whole};
use status_pages::{Asked, ContentType, Delivery, Page, Refusal, Starved, Status, response};
use std::alloc::Global;
use std::io::Write;

/// The body of an answer.
#[derive(Drop)]
pub(crate) enum Body {
    Page(Vec<u8>),
    /// A line that says what is wrong.
    Note(&'static str),
}

/// An answer: how it is sent, and its body.
#[derive(Drop)]
pub(crate) struct Answer {
    pub(crate) how: Delivery,
    pub(crate) body: Body,
}

// Which type a page is of.
fn type_of(page: Page) -> ContentType
    ensures { result ≡ type_of page }
{
    match page {
        Page::Index => ContentType::Html,
        Page::Metrics => ContentType::Metrics,
        Page::Locks | Page::Waiters | Page::Hosts | Page::Status => ContentType::Json,
    }
}

// A line that says what is wrong.
fn note(status: Status, is_head: bool, stays: bool) -> Answer
    ensures sent { (result.how.is_head ≡ is_head) × (result.how.stays ≡ stays) }
    ensures note { IsNote status result.how (body_of result.body) }
{
    Answer {
        how: Delivery {
            status,
            content_type: ContentType::Text,
            is_head,
            stays,
        },
        body: Body::Note(status.note()),
    }
}

// What was written goes on its way.
fn flush<O: Write>(output: &mut O) -> Result<(), PagesEnding>
    ensures kept { Keeps (O.contents output.old) (O.contents output.new) }
    ensures why { IfErr result (λ e. e ≡ PagesEnding.WriteFault) }
{
    match output.flush() {
        Ok(()) => Ok(()),
        Err(_) => Err(PagesEnding::WriteFault),
    }
}

impl Body {
    fn as_bytes(&self) -> &[u8]
        ensures { result.now ≡ body_of self.now }
    {
        match self {
            Body::Page(bytes) => bytes.as_slice(),
            Body::Note(text) => text.as_bytes(),
        }
    }
}

impl Answer {
    /// What a request is answered: the page, or that there is none, or no memory for it.
    pub(crate) fn to_request<P: Pages>(pages: &mut P, asked: Asked) -> Answer
        ensures { FitsAsked asked result.how (body_of result.body) }
    {
        let Some(page) = asked.page else {
            return note(Status::NotFound, asked.is_head, asked.stays);
        };
        match pages.page(page) {
            Ok(bytes) => Answer {
                how: Delivery {
                    status: Status::Ok,
                    content_type: type_of(page),
                    is_head: asked.is_head,
                    stays: asked.stays,
                },
                body: Body::Page(bytes),
            },
            Err(Starved) => note(Status::Starved, asked.is_head, asked.stays),
        }
    }

    /// What is answered where no page is asked for.
    pub(crate) fn to_refused(refusal: Refusal) -> Answer
        ensures { FitsRefusal refusal result.how (body_of result.body) }
    {
        note(Status::from(refusal), false, false)
    }

    // Writes its body, unless its head alone was asked for.
    fn write_body<O: Write>(&self, output: &mut O) -> Result<(), WriteFault>
        ensures { Wrote (O.contents output.old) (O.contents output.new) result (sent_of self.now.how (body_of self.now.body)) }
    {
        if self.how.is_head {
            Ok(())
        } else {
            write_whole(output, self.body.as_bytes())
        }
    }

    // Writes its head, and its body unless its head alone was asked for.
    fn write_parts<O: Write>(&self, head: &[u8], output: &mut O) -> Result<(), WriteFault>
        ensures { Wrote (O.contents output.old) (O.contents output.new) result (head.now ++ sent_of self.now.how (body_of self.now.body)) }
    {
        match write_whole(output, head) {
            Ok(()) => self.write_body(output),
            Err(fault) => Err(fault),
        }
    }

    // Its head. The body isn't copied: it may be long.
    fn head(&self, alloc: Global) -> Result<Vec<u8>, Starved>
        ensures { IfOk result (λ head. head.items ≡ head_text self.now.how (length (body_of self.now.body))) }
    {
        let alone = Delivery {
            is_head: true,
            ..self.how
        };
        response(alloc, alone, self.body.as_bytes())
    }

    /// Writes it: its head, and its body unless its head alone was asked for.
    pub(crate) fn write<O: Write>(&self, alloc: Global, output: &mut O) -> Result<(), PagesEnding>
        ensures { Writes result (response_text self.now.how (body_of self.now.body)) (O.contents output.old) (O.contents output.new) }
    {
        let Ok(head) = self.head(alloc) else {
            return Err(PagesEnding::Starved);
        };
        match self.write_parts(head.as_slice(), output) {
            Ok(()) => flush(output),
            Err(_) => Err(PagesEnding::WriteFault),
        }
    }
}
