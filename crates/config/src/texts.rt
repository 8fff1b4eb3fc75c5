//! Settings that are texts.

ghost use Rattle.std.specs.Prelude.{◌≡◌, ◌≤◌, length, IfOk};
ghost use Rattle.config.specs.Settings.{is_name};

use std::alloc::{AllocError, Global};
use std::marker::Model;

/// Whether a text is a name of 1 to 1,024 bytes.
pub(crate) fn is_name(text: &str) -> bool
    ensures { result ≡ is_name text.now }
{
    1 <= text.len() && text.len() <= 1_024
}

/// The server's own name, 1 to 1,024 bytes.
#[derive(Debug, Drop)]
pub struct OwnName {
    text: String,
}

impl Model for OwnName {
    ghost use Rattle.std.specs.Prelude.{List, ℕ, string_bytes, ◌≤◌, length};

    ghost Value = { List ℕ };

    ghost view = { λ n. string_bytes n.text };

    ghost invariant = { λ n. (1 ≤ length (string_bytes n.text)) × (length (string_bytes n.text) ≤ 1024) };
}

impl OwnName {
    pub(crate) fn copy_of(alloc: Global, text: &str) -> Result<OwnName, AllocError>
        requires least { 1 ≤ length text.now }
        requires most { length text.now ≤ 1024 }
        ensures { IfOk result (λ name. name ≡ text.now) }
    {
        Ok(OwnName {
            text: String::from_str(alloc, text)?,
        })
    }

    pub fn as_str(&self) -> &str
        ensures value { result.now ≡ self.now }
        ensures least { 1 ≤ length result.now }
        ensures most { length result.now ≤ 1024 }
    {
        self.text.as_str()
    }
}

/// Where a file is.
#[derive(Debug, Drop)]
pub struct FilePath {
    text: String,
}

impl Model for FilePath {
    ghost use Rattle.std.specs.Prelude.{List, ℕ, string_bytes};

    ghost Value = { List ℕ };

    ghost view = { λ p. string_bytes p.text };
}

impl FilePath {
    pub(crate) fn copy_of(alloc: Global, text: &str) -> Result<FilePath, AllocError>
        ensures { IfOk result (λ path. path ≡ text.now) }
    {
        Ok(FilePath {
            text: String::from_str(alloc, text)?,
        })
    }

    pub fn as_str(&self) -> &str
        ensures { result.now ≡ self.now }
    {
        self.text.as_str()
    }
}
