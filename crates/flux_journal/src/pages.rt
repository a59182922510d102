//! A long text in pages.

ghost use Rattle.std.specs.Prelude.{◌≡◌, ◌++◌, reverse, OnOk, IfOk};
ghost use Rattle.flux_journal.specs.Pages.{joined};
ghost use Rattle.flux_journal.specs.steps.Paged.{text_of};

use flux_values::{Bytes, List, Memory};
use std::alloc::Global;
use std::marker::Model;

/// A text in pages, seen as the whole text. No page is copied as the text grows, and no piece of memory is larger than
/// one page needs.
pub struct Pages {
    full: List<Bytes>,
    last: Bytes,
}

impl Drop for Pages {
    fn drop(self) {
        let Pages { full, last } = self;
    }
}

impl Model for Pages {
    ghost use Rattle.std.specs.Prelude.{List, ℕ};
    ghost use Rattle.flux_journal.specs.Pages.{joined};

    ghost Value = { List ℕ };

    ghost view = { λ p. joined p.full p.last };
}

impl Pages {
    /// A text that is at hand, as one page.
    pub fn from_bytes(alloc: Global, text: Bytes) -> Pages
        ensures { result ≡ text }
    {
        Pages {
            full: List::new(alloc),
            last: text,
        }
    }

    /// A first page, and those after it, of which the last one comes first.
    pub(crate) fn from_last(
        alloc: Global,
        first: Bytes,
        mut later: List<Bytes>,
    ) -> Result<Pages, Memory>
        ensures { IfOk result (λ pages. pages ≡ first ++ text_of (reverse later)) }
    {
        let mut pages = Pages::from_bytes(alloc, first);
        'pages: while let Some(page) = later.pop() {
            pages.add(page)?;
        }
        Ok(pages)
    }

    /// Adds a page at the end. After an `Err` the one before it is lost.
    fn add(&mut self, page: Bytes) -> Result<(), Memory>
        ensures { OnOk result (self.new ≡ self.old ++ page) }
    {
        let full = std::mem::replace(&mut self.last, page);
        self.full.add(full)
    }

    /// The full pages in order, and the last one, which may be empty.
    pub fn parts(&self) -> (&[Bytes], &[u8])
        ensures { self.now ≡ joined result.0.now result.1.now }
    {
        (self.full.as_slice(), self.last.as_bytes())
    }
}
