//! What holds of all pages.

ghost use Rattle.ticklab_page.specs.Laws.{ShownLaw};

/// As a page writes it, no text of a file opens or closes a tag or a value of an attribute.
pub fn law_shown()
    ensures { ShownLaw }
{}
