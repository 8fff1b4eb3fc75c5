//! Who makes pages.
use status_pages::{Page, Starved};

/// Makes pages.
pub trait Pages {
    /// The bytes of a page, as it is now. `Starved`: there is no memory for it.
    fn page(&mut self, page: Page) -> Result<Vec<u8>, Starved>;
}
