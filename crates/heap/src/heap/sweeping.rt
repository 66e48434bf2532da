// Pages are swept, and opened again.
ghost use Rattle.std.specs.Prelude.{◌≡◌, false, slice_set};
ghost use Rattle.model.specs.Pages.{page_at};
ghost use Rattle.model.specs.Units.{swept, close_page};
ghost use Rattle.heap.specs.View.{view, LeavesMarked};

use super::Heap;

impl Heap {
    // The blocks of the page that are not marked become free, the marks go, and the page opens.
    pub fn sweep(&mut self, page: usize)
        ensures view { view self.new ≡ slice_set (view self.old) page (swept (page_at (view self.old) page)) }
        ensures leaves { LeavesMarked (view self.old) (view self.new) page }
    {
        self.pages.sweep(page);
    }

    // The page is open from now on.
    pub fn reopen(&mut self, page: usize)
        ensures { view self.new ≡ close_page (view self.old) page false }
    {
        self.pages.reopen(page);
    }
}
