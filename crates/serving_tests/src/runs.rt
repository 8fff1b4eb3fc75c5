//! What the program does that these words ask.
use config::{Config, config};
use lockd_serving::{Console, serve_asked};
use server::Runtime;
use std::alloc::{AllocError, Global};
use std::process::ExitCode;
use test_kit::put_plain;

/// Words that ask for something, a stream, what is written for it, and the status.
#[derive(Clone, Copy)]
pub(crate) struct Run<'a> {
    /// The words, with spaces between them.
    pub(crate) asked: &'a str,
    /// The stream, as words in hexadecimal.
    pub(crate) comes: &'a str,
    /// What is written: words in hexadecimal, and a text behind them.
    pub(crate) words: &'a str,
    pub(crate) text: &'a str,
    pub(crate) status: u8,
}

fn words_of(alloc: Global, line: &str) -> Result<Vec<String>, AllocError> {
    let mut words = Vec::new(alloc);
    for word in line.split_whitespace() {
        words.push(String::from_str(alloc, word)?)?;
    }
    Ok(words)
}

/// What a line asks. None where it asks nothing.
fn asked_by(alloc: Global, line: &str) -> Option<Config> {
    let words = words_of(alloc, line).ok()?;
    config(alloc, &words).ok()
}

/// Does what the line asks, with this stream: the status. What is written goes to `told`.
pub(crate) fn status<R: Runtime>(
    host: &HostRuntime,
    rt: &R,
    line: &str,
    stream: &[u8],
    told: &mut Vec<u8>,
) -> Option<ExitCode> {
    let asked = asked_by(host.alloc(), line)?;
    let mut console = Console {
        input: stream,
        output: told,
    };
    Some(serve_asked(host, rt, &mut console, &asked))
}

impl Run<'_> {
    /// Whether just that is written, with that status.
    pub(crate) fn goes<R: Runtime>(&self, host: &HostRuntime, rt: &R) -> bool {
        let alloc = host.alloc();
        let mut comes = Vec::new(alloc);
        let mut wanted = Vec::new(alloc);
        let mut told = Vec::new(alloc);
        let is_put = put_plain(&mut comes, self.comes)
            && put_plain(&mut wanted, self.words)
            && wanted.extend_from_slice(self.text.as_bytes()).is_ok();
        let status = status(host, rt, self.asked, comes.as_slice(), &mut told);
        is_put && status == Some(ExitCode::from(self.status)) && told == wanted
    }
}
