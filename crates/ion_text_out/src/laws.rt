//! Laws of the definitions of text, each the contract of a function that does nothing.
ghost use Rattle.ion_text_out.specs.Laws.{AreLayouts, EachTextIsThatOfItems, ItemsAddTheirText, PathTextIsThatOfItems, TextIsThatOfItems};

/// An item more adds its text to that of the items before it.
pub fn items_add_their_text()
    ensures { ItemsAddTheirText }
{}

/// The text of whole values by each layout is that of their items, one after the other, and so is
/// that of a path.
pub fn each_text_is_that_of_items()
    ensures { EachTextIsThatOfItems }
{}

/// Canonical text and pretty text have only white space between their tokens, and the commas and
/// colons that the grammar asks for.
pub fn are_layouts()
    ensures { AreLayouts }
{}

/// The text of whole values is that of their items, one after the other.
pub fn text_is_that_of_items()
    ensures { TextIsThatOfItems }
{}

/// The text of a path is that of its items, one after the other: of whole values, and of the
/// containers that are still open, each with its members so far and no closing bracket.
pub fn path_text_is_that_of_items()
    ensures { PathTextIsThatOfItems }
{}
