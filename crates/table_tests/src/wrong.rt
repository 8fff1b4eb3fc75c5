//! What a test finds otherwise than it says.
use std::alloc::AllocError;

/// What is wrong: a claim, a case or a script by its name, and where it has rows or turns the first that goes otherwise.
#[derive(Clone, Copy, Debug)]
pub(crate) struct Wrong {
    pub(crate) what: &'static str,
    pub(crate) place: Option<usize>,
}

/// What is tried can't begin.
pub(crate) const NO_MEMORY: Wrong = Wrong {
    what: "there is no memory",
    place: None,
};

/// Whether it goes wrong at no place.
pub(crate) fn nowhere(what: &'static str, place: Option<usize>) -> Result<(), Wrong> {
    match place {
        Some(_) => Err(Wrong { what, place }),
        None => Ok(()),
    }
}

/// Whether all claims hold. Else the first that does not.
pub(crate) fn all_hold(claims: &[(&'static str, bool)]) -> Result<(), Wrong> {
    for (what, holds) in claims {
        if !*holds {
            return Err(Wrong { what, place: None });
        }
    }
    Ok(())
}

/// Whether a text was made, and is this one.
pub(crate) fn reads(text: Result<String, AllocError>, shown: &str) -> bool {
    match text {
        Ok(text) => text.as_str() == shown,
        Err(AllocError) => false,
    }
}
