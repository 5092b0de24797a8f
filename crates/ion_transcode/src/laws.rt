//! Laws of the verdicts of streams, under whatever profiles, each the contract of a function that
//! does nothing.
ghost use Rattle.ion_meter.specs.declared.profile.Profile.{Profile};
ghost use Rattle.ion_transcode.specs.Acceptance.{GoodStreamsAreAccepted, WhatIsAcceptedIsRead, WhatIsReadIsAccepted};
ghost use Rattle.ion_transcode.specs.AcceptedTrees.{TreesInOrderAreAccepted};
ghost use Rattle.ion_transcode.specs.Catalogues.{CatalogVerdictsAreRead, CatalogsAreLoaded, CatalogsAreText, OneCatalog, OneCatalogVerdict, TablesAreCatalogs};
ghost use Rattle.ion_transcode.specs.Depth.{WhatIsReadIsNoDeeper};
ghost use Rattle.ion_transcode.specs.Forms.{binary_encoding, text_encoding};
ghost use Rattle.ion_transcode.specs.InParts.{BinaryStreamsJoin, DeclarationsMayBeKept, PartsAreTheWhole, PartsOfBinaryShowTheWhole, RefusalsOfBinaryStand, ValuesChangeNothingKept, WhatGivesNoneMayBeKept, WhatIsAcceptedLeavesATable};
ghost use Rattle.ion_transcode.specs.Laws.{BinaryIsComplete, BinaryIsSound, OneSpelling, OneVerdict, SpellsOnce, StreamsAreRead, TextIsComplete, TextIsSound, WhatStrictAcceptsIsAccepted};
ghost use Rattle.ion_transcode.specs.PartCalls.{RefusalsComeBehind, RefusedStretchesStand, StretchesAreTaken};
ghost use Rattle.ion_transcode.specs.RoundTrip.{EachTextIsRead, LayoutsAreAlike, LayoutsAreShownAlike, RoundTrip, ShowOnce, TextIsRead, ThereAndBack, ValuesOfStreams};
ghost use Rattle.ion_transcode.specs.ShownAgain.{EachShownTextIsAccepted, EachTextIsReadWithin, TextIsReadWithin, WhatIsShownIsAccepted};
ghost use Rattle.ion_transcode.specs.UserPaths.{FaultlessPathsAreRead, RefusedOutputIsThatOfAPath};
ghost use Rattle.ion_transcode.specs.WrittenAgain.{WrittenBinaryIsAccepted};

use ion_binary::laws as binary;
use ion_symbols::laws::{
    accepted_streams_lead_to_the_top, catalogs_are_read, catalogs_are_tables,
    declarations_leave_the_table, open_users_are_read, tables_of_users_are_text,
    texts_of_users_are_short, users_are_read, users_hang_on_no_place, users_of_raw_values,
    users_read_on, values_keep_the_table, what_is_accepted_is_resolved, what_is_declared,
    what_is_resolved_is_accepted, why_refused,
};
use ion_text_in::laws as text;
use ion_text_out::laws::{are_layouts, each_text_is_that_of_items};

/// The binary encoding is sound: its reading is that of its steps, and each step follows its
/// grammar.
pub fn binary_is_sound()
    ensures { BinaryIsSound }
{
    binary::each_step_follows();
    binary::each_step_falls();
}

/// The encoding of text is sound: its reading is that of its steps, and each step follows its
/// grammar.
pub fn text_is_sound()
    ensures { TextIsSound }
{
    text::each_step_follows();
    text::each_step_falls();
}

/// Under limits that allow as many bytes as there are, what binary spells and the profile permits is
/// read, and where a reading stops for another reason than a limit, the input is no such stream of
/// binary.
pub fn binary_is_complete()
    ensures { BinaryIsComplete }
{
    binary::what_is_spelled_is_read();
    binary::streams_are_read();
    binary::rightly_refused();
}

/// Under limits that allow as many bytes as there are, what text spells and the profile permits is
/// read, and where a reading stops for another reason than a limit, the input is no such text.
pub fn text_is_complete()
    ensures { TextIsComplete }
{
    text::what_is_spelled_is_read();
    text::streams_are_read();
    text::rightly_refused();
}

/// Binary is one stream at most, and of two of its paths the items of one begin the other's.
pub fn binary_is_spelled_once()
    ensures { (profile : Profile) → SpellsOnce (binary_encoding profile) }
{
    binary::one_path();
    binary::one_stream();
}

/// So is text.
pub fn text_is_spelled_once()
    ensures { (profile : Profile) → SpellsOnce (text_encoding profile) }
{
    text::one_path();
    text::one_stream();
}

/// In the encoding of each form an input is one stream at most, and of two of its paths the items of
/// one begin the other's.
pub fn one_spelling()
    ensures { OneSpelling }
{
    binary_is_spelled_once();
    text_is_spelled_once();
}

/// A stream has one verdict and one output at most.
pub fn one_verdict()
    ensures { OneVerdict }
{
    users_are_read();
    each_text_is_that_of_items();
}

/// Each stream has the verdict that the reading of its items one by one has.
pub fn streams_are_read()
    ensures { StreamsAreRead }
{
    binary_is_sound();
    text_is_sound();
    users_are_read();
    open_users_are_read();
    each_text_is_that_of_items();
    binary::items_put_the_form();
    binary::open_items_put_what_is_whole();
    binary::items_are_refused_as_in_trees();
}

/// The user items of a path that is faultless are those of its path of user values: whole values, and
/// the containers that are open there, unless they are a declaration's.
pub fn faultless_paths_are_read()
    ensures { FaultlessPathsAreRead }
{
    users_are_read();
    open_users_are_read();
}

/// What is written of a stream that is refused is that of the user values of a path that the
/// stream's bytes spell, after which the first fault stands: text with its brackets open, or the
/// whole values in binary.
pub fn refused_output_is_that_of_a_path()
    ensures { RefusedOutputIsThatOfAPath }
{
    faultless_paths_are_read();
    each_text_is_that_of_items();
}

/// What reading item by item says of a stream is its verdict as a catalogue.
pub fn catalog_verdicts_are_read()
    ensures { CatalogVerdictsAreRead }
{
    binary_is_sound();
    text_is_sound();
    users_are_read();
}

/// It loads the tables of the stream's user values.
pub fn catalogs_are_loaded()
    ensures { CatalogsAreLoaded }
{
    binary_is_sound();
    text_is_sound();
    users_are_read();
    catalogs_are_read();
    catalogs_are_tables();
}

/// The texts of the catalogue of a stream of bytes are UTF-8, so that the laws of the round trip hold
/// by it.
pub fn catalogs_are_text()
    ensures { CatalogsAreText }
{
    values_of_streams();
    tables_of_users_are_text();
}

/// Where a run to nothing accepts a stream under the empty catalogue, and its user values are
/// tables within the limit, it is their catalogue: so `load_catalog` does not refuse it.
pub fn tables_are_catalogs()
    ensures { TablesAreCatalogs }
{
    one_spelling();
    users_are_read();
    catalogs_are_read();
    catalogs_are_tables();
}

/// A stream has one verdict as a catalogue at most.
pub fn one_catalog_verdict()
    ensures { OneCatalogVerdict }
{
    users_are_read();
}

/// It has one catalogue at most.
pub fn one_catalog()
    ensures { OneCatalog }
{
    one_spelling();
}

/// The text by any layout of values that a user of a stream can have is a stream of text, and the user
/// values of that stream are these values again, whatever the catalogue. A layout has only white space
/// between tokens, and the commas and colons that the grammar asks for.
pub fn each_layout_is_read()
    ensures { EachTextIsRead }
{
    text::what_ends_a_number();
    text::what_ends_a_symbol();
    text::what_begins_a_token();
    text::null_text_is_read();
    text::bool_text_is_read();
    text::int_text_is_read();
    text::decimal_text_is_read();
    text::float_text_is_read();
    text::timestamp_text_is_read();
    text::string_text_is_read();
    text::quoted_symbol_is_read();
    text::plain_symbol_is_read();
    text::id_is_read();
    text::clob_text_is_read();
    text::base64_is_read();
}

/// So it is of canonical text.
pub fn text_is_read()
    ensures { TextIsRead }
{
    each_layout_is_read();
    are_layouts();
}

/// What is shown of a text of values is what is shown of the values themselves: where text by any layout
/// of white space, commas and colons (`IsLayout`) is read, the text of what is read is that of the
/// values, by this layout and by each other.
pub fn layouts_are_alike()
    ensures { LayoutsAreAlike }
{
    each_layout_is_read();
    text::one_stream();
}

/// The user values of each stream of bytes are values that a user can have: numbers in their ranges,
/// texts in UTF-8, lobs of bytes, fields in structs alone, and no declaration; where the texts of the
/// catalogue are UTF-8, as those of a loaded one are (`catalogs_are_text`).
pub fn values_of_streams()
    ensures { ValuesOfStreams }
{
    users_of_raw_values();
    binary::streams_are_raw();
    text::streams_are_raw();
}

/// What is written of the user values of a stream is a stream of these values again: as text, and as
/// binary where no value and no declaration in it is too long. It may be read by another catalogue.
pub fn round_trip()
    ensures { RoundTrip }
{
    values_of_streams();
    text_is_read();
    binary::the_form_is_read();
}

/// What is shown by a layout of the text by another is what is shown by it of the stream that the text
/// was written of: a run to text over the output of a run to text writes the text of the same values by
/// its own layout, and counts as many, where both are accepted.
pub fn layouts_are_shown_alike()
    ensures { LayoutsAreShownAlike }
{
    what_is_accepted_is_read();
    values_of_streams();
    each_layout_is_read();
    are_layouts();
    one_spelling();
    text::one_stream();
}

/// To show what was shown changes nothing: a run to text over the output of a run to text writes that
/// output again, and counts as many values, where both are accepted.
pub fn show_once()
    ensures { ShowOnce }
{
    layouts_are_shown_alike();
}

/// To convert a stream and show the binary is to show the stream: a run to text over the binary that
/// was written of a text, or of binary, writes the text of its values by its layout, where both runs
/// are accepted, and counts as many. A run to text over the stream itself is then accepted under the
/// first run's limits, and each by that layout that is accepted, under whatever limits, writes the same.
pub fn there_and_back()
    ensures { ThereAndBack }
{
    what_is_accepted_is_read();
    what_is_read_is_accepted();
    users_of_raw_values();
    binary::streams_are_raw();
    text::streams_are_raw();
    binary::the_form_is_read();
    binary::what_is_within_is_short();
    one_spelling();
}

/// What is read to its end, and has its symbols resolved, and values of which the writer refuses
/// nothing, is accepted, and its output is that of these values.
pub fn what_is_read_is_accepted()
    ensures { WhatIsReadIsAccepted }
{
    streams_are_read();
    users_are_read();
    what_is_resolved_is_accepted();
    binary::none_is_refused_within();
    each_text_is_that_of_items();
    binary::items_put_the_form();
}

/// So is each stream of the grammar of its form that the profile permits and that passes no limit, has
/// its symbols resolved, and values of which the writer refuses nothing.
pub fn good_streams_are_accepted()
    ensures { GoodStreamsAreAccepted }
{
    what_is_read_is_accepted();
    binary::streams_within_limits_are_read();
    text::streams_within_limits_are_read();
}

/// So, told by its trees alone, is each stream of the grammar of its form that the profile permits and
/// that passes no limit, of whose declarations each is in order and finds its tables, whose other
/// symbols stand in the table at their place, and of whose values the writer refuses nothing.
pub fn trees_in_order_are_accepted()
    ensures { TreesInOrderAreAccepted }
{
    good_streams_are_accepted();
    why_refused();
    what_is_declared();
}

/// And no other stream is accepted: each that is, is read to its end, has its symbols resolved, and
/// values of which the writer refuses nothing.
pub fn what_is_accepted_is_read()
    ensures { WhatIsAcceptedIsRead }
{
    binary_is_sound();
    text_is_sound();
    what_is_accepted_is_resolved();
    users_are_read();
    faultless_paths_are_read();
    binary::items_are_refused_as_in_trees();
    binary::none_is_refused_within();
    one_spelling();
}

/// What the strict profile accepts, the one that reads floats accepts too: as many values, with the same
/// output.
pub fn what_strict_accepts_is_accepted()
    ensures { WhatStrictAcceptsIsAccepted }
{
    what_is_accepted_is_read();
    what_is_read_is_accepted();
    binary::limits_only_cut_short();
    text::strict_is_read_alike();
}

/// The values of a stream that is read to its end open no more containers inside each other than
/// the limit says.
pub fn what_is_read_is_no_deeper()
    ensures { WhatIsReadIsNoDeeper }
{}

/// The text of values by any layout (`IsLayout`) is read to its end under limits that the values fit,
/// where the limit on scalars is 64 or more, and its symbols are all resolved: of all values that a user
/// of a stream can have. No number and no timestamp has more than 64 bytes, and white space counts for
/// no limit.
pub fn each_layout_is_read_within()
    ensures { EachTextIsReadWithin }
{
    text::what_ends_a_number();
    text::what_ends_a_symbol();
    text::what_begins_a_token();
    text::null_text_is_read();
    text::bool_text_is_read();
    text::int_text_is_read();
    text::decimal_text_is_read();
    text::float_text_is_read();
    text::timestamp_text_is_read();
    text::string_text_is_read();
    text::quoted_symbol_is_read();
    text::plain_symbol_is_read();
    text::id_is_read();
    text::clob_text_is_read();
    text::base64_is_read();
    text::what_is_within_limits_is_read();
}

/// So it is of canonical text.
pub fn text_is_read_within()
    ensures { TextIsReadWithin }
{
    each_layout_is_read_within();
    are_layouts();
}

/// What a run to canonical or pretty text wrote is accepted, where its values fit the limits, and a run
/// to either over it writes that text of its values. Where depth is no lower and the limit on scalars is
/// 64 or more, only texts, lobs and annotations may be too long.
pub fn each_shown_text_is_accepted()
    ensures { EachShownTextIsAccepted }
{
    what_is_accepted_is_read();
    one_spelling();
    values_of_streams();
    what_is_read_is_no_deeper();
    each_layout_is_read_within();
    are_layouts();
    what_is_read_is_accepted();
}

/// So is canonical text, and a run to canonical text over it writes the same bytes.
pub fn what_is_shown_is_accepted()
    ensures { WhatIsShownIsAccepted }
{
    each_shown_text_is_accepted();
}

/// Where a run to binary accepts a stream, a run over what it wrote accepts that too, under the same
/// limits and whatever the catalogue, and writes what a run to text over the stream does: of a text
/// under checked limits of 16 or more for a scalar, where no symbol of the values has a text that is
/// none of the system symbol table, or the limits allow a declaration and these texts; and of text and
/// of binary under any that the values fit by their own lengths and numbers.
pub fn written_binary_is_accepted()
    ensures { WrittenBinaryIsAccepted }
{
    what_is_accepted_is_read();
    what_is_read_is_accepted();
    users_of_raw_values();
    binary::streams_are_raw();
    text::streams_are_raw();
    text::values_read_are_within_limits();
    texts_of_users_are_short();
    binary::texts_within_fit();
    binary::the_form_is_read();
    binary::what_is_within_is_short();
    binary::what_is_written_is_within_limits();
    binary::what_is_written_is_resolved();
    binary::numbers_in_text_fit();
}

/// However a stream is cut into parts behind whole values, and whatever is kept between them that leaves
/// the same symbol table, all parts together have the verdict and the output of the whole: text, pretty
/// text, or none.
pub fn parts_are_the_whole()
    ensures { PartsAreTheWhole }
{
    streams_are_read();
    one_verdict();
    what_is_accepted_is_read();
    users_are_read();
    binary::whole_values_are_cut();
    binary::nothing_hangs_on_places();
    text::lines_are_cut();
    text::nothing_hangs_on_places();
    users_read_on();
    users_hang_on_no_place();
}

/// Where a binary stream is accepted, another may stand behind it: its values and its output come behind
/// those of the first. So parts that were written as binary are one stream.
pub fn binary_streams_join()
    ensures { BinaryStreamsJoin }
{
    streams_are_read();
    one_verdict();
    what_is_accepted_is_read();
    users_are_read();
    binary::whole_values_are_cut();
    binary::nothing_hangs_on_places();
    binary::streams_begin_with_a_marker();
    users_read_on();
    users_hang_on_no_place();
    what_is_resolved_is_accepted();
    accepted_streams_lead_to_the_top();
}

/// The parts of a text that are written as binary are together one stream, which shows what the text
/// shows, where all parts are accepted under checked limits that allow whatever is declared.
pub fn parts_of_binary_show_the_whole()
    ensures { PartsOfBinaryShowTheWhole }
{
    streams_are_read();
    one_verdict();
    what_is_accepted_is_read();
    users_are_read();
    binary::whole_values_are_cut();
    binary::nothing_hangs_on_places();
    text::lines_are_cut();
    text::nothing_hangs_on_places();
    users_read_on();
    users_hang_on_no_place();
    binary_streams_join();
    written_binary_is_accepted();
}

/// A refusal of a binary stream stands whatever bytes follow, unless it is for the want of bytes.
pub fn refusals_of_binary_stand()
    ensures { RefusalsOfBinaryStand }
{
    streams_are_read();
    one_verdict();
    binary::more_bytes_go_on();
}

/// What is accepted leaves a symbol table at top level, and gives no item of a user value where no
/// value is counted.
pub fn what_is_accepted_leaves_a_table()
    ensures { WhatIsAcceptedLeavesATable }
{
    what_is_accepted_is_read();
    users_are_read();
    what_is_resolved_is_accepted();
    accepted_streams_lead_to_the_top();
}

/// Between two parts of a stream the bytes of its declarations behind the last version marker may be
/// kept, wherever they stand; or all bytes, where they give no user value; and behind a part of user
/// values alone, the bytes that were kept before it.
pub fn what_may_be_kept()
    ensures declarations { DeclarationsMayBeKept }
    ensures nothing_given { WhatGivesNoneMayBeKept }
    ensures values { ValuesChangeNothingKept }
{
    declarations_leave_the_table();
    users_hang_on_no_place();
    values_keep_the_table();
    binary::whole_values_are_cut();
    binary::nothing_hangs_on_places();
    text::lines_are_cut();
    text::nothing_hangs_on_places();
    users_read_on();
}

/// A stretch of a part that is accepted is taken, with what is then kept: what was kept stays behind user
/// values, a version marker is kept behind one, and all bytes that give no user value; and each other
/// part is run behind that. One that is refused is refused whatever follows,
/// at a place behind what was kept.
pub fn stretches_of_parts()
    ensures taken { StretchesAreTaken }
    ensures refused { RefusedStretchesStand }
    ensures behind { RefusalsComeBehind }
{
    streams_are_read();
    one_verdict();
    what_is_accepted_leaves_a_table();
    what_may_be_kept();
    values_keep_the_table();
    binary::whole_values_are_cut();
    binary::nothing_hangs_on_places();
    text::lines_are_cut();
    text::nothing_hangs_on_places();
    users_read_on();
    users_hang_on_no_place();
}
