use xdr_core::{Below, Cursor, Frame, FrameFull, Wire, XdrError};

/// What a share does with the file, or denies the others (XNFS, fsh_access and fsh_mode).
#[derive(Clone, Copy, PartialEq, Eq)]
pub enum Access {
    None,
    Read,
    Write,
    Both,
}

/// What a share denies the others.
pub type DenyMode = Access;

// Each at the place of its word.
const ACCESSES: [Access; 4] = [Access::None, Access::Read, Access::Write, Access::Both];

#[tactic(auto, unfolding(crate::specs::Access::access))]
impl<'r> Wire<'r> for Access {
    ghost use Rattle.definitions.specs.Shares as shares;
    ghost use Rattle.nlm4_types.specs.Access.{view_of_access, access};

    ghost Value = { shares.Access };

    ghost view = { view_of_access };

    ghost codec = { access };

    fn get(c: &mut Cursor<'r>) -> Result<Access, XdrError> {
        let word = Below::<4>::get(c)?;
        Ok(ACCESSES[word.number as usize])
    }

    fn put(&self, f: &mut Frame) -> Result<(), FrameFull> {
        Below::<4> {
            number: *self as u32,
        }
        .put(f)
    }
}
