//! What is noted for an audit.
ghost use Rattle.std.specs.Prelude.{◌≡◌, ◌<◌, [], ◌∷◌, ◌++◌, is_some, IfOk, IfSome};
ghost use Rattle.std.specs.Option.{ForSome};
ghost use Rattle.workers.specs.Places.{HasPlace};

use book::Starved;
use ghost_list::History;
use std::alloc::Global;

/// Items in the order in which they came. They are kept for an audit alone; else contracts alone see them.
#[derive(Drop)]
pub(crate) struct Archive<T> {
    pub(crate) all: History<T>,
    kept: Option<Vec<T>>,
    ghost same: { ForSome kept (λ items. items.items ≡ all.items) },
}

impl<T: Drop> Archive<T> {
    pub(crate) fn new(alloc: Global, is_kept: bool) -> Archive<T>
        ensures all { result.all.items ≡ [] }
        ensures kept { is_some result.kept ≡ is_kept }
    {
        Archive {
            all: History::new(),
            kept: is_kept.then(|| Vec::new(alloc)),
        }
    }

    /// Gets a place for one item more, where they are kept.
    pub(crate) fn reserve(&mut self) -> Result<(), Starved>
        ensures place { IfOk result (λ _. HasPlace self.new.kept) }
        ensures same { self.new.all.items ≡ self.old.all.items }
        ensures kept { is_some self.new.kept ≡ is_some self.old.kept }
    {
        if let Some(items) = &mut self.kept {
            items.reserve(1)?;
        }
        Ok(())
    }

    /// One item more. It comes back where none are kept.
    pub(crate) fn add(&mut self, item: T) -> Option<T>
        requires place { HasPlace self.old.kept }
        ensures all { self.new.all.items ≡ self.old.all.items ++ item ∷ [] }
        ensures kept { is_some self.new.kept ≡ is_some self.old.kept }
    {
        self.all = self.all.and(&item);
        match &mut self.kept {
            Some(items) => {
                items.push_reserved(item);
                None
            }
            None => Some(item),
        }
    }

    /// The items, where they were kept.
    pub(crate) fn into_kept(self) -> Option<Vec<T>>
        ensures all { IfSome result (λ items. items.items ≡ self.all.items) }
        ensures kept { is_some result ≡ is_some self.kept }
    {
        self.kept
    }

    /// The items and a last one, where they were kept.
    pub(crate) fn into_kept_with(mut self, last: T) -> Result<Option<Vec<T>>, Starved>
        ensures all { IfOk result (λ kept. IfSome kept (λ items. items.items ≡ self.all.items ++ last ∷ [])) }
        ensures kept { IfOk result (λ kept. is_some kept ≡ is_some self.kept) }
    {
        self.reserve()?;
        self.add(last);
        Ok(self.into_kept())
    }
}
