// The numbers that name blocks.
ghost use Rattle.std.specs.Prelude.{◌≡◌, ◌<◌};
ghost use Rattle.model.specs.Pages.{number};

// The number of the block in a slot of a page; 0 names none.
pub(crate) fn number_of(page: usize, slot: usize) -> u32
    requires { (page < 64) × (slot < 64) }
    ensures { result ≡ number page slot }
{
    (64 * page + slot + 1) as u32
}
