//! What follows from what a core is.

ghost use Rattle.doll_core.specs.Pages.{KnownPagesOpen, TurnsEndWithAPage};

/// All turns of a page end with the page.
pub fn turns_end_with_a_page()
    ensures { TurnsEndWithAPage }
{}

/// A page that is there for a target over all commits is opened for a caller who has seen no more than there is.
pub fn known_pages_open()
    ensures { KnownPagesOpen }
{}
