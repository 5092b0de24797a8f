//! Laws of the grammar and the reading of the binary form, each the contract of a function that
//! does nothing.
ghost use Rattle.ion_binary.specs.Laws.{Bodies, Complete, EachStepFalls, EachStepFollows, ExactLimits, Narrow, NoStreamBegins, OnePath, OneStream, PassedLimitsStop, RightlyRefused, Sound, Stable, StreamsAreRaw, StreamsAreRead, WithinLimitsAreRead};
ghost use Rattle.ion_binary.specs.Cuts.{EachEndIsACut, MoreBytesGoOn, NothingHangsOnPlaces, PartsAreRead, StreamsBeginWithMarker, WholeValuesAreCut};
ghost use Rattle.ion_binary.specs.WritingLaws.{ClosedSizeIsThatOfTheClosing, IdsAreGiven, ItemsAddTheirOctets, ItemsPutTheForm, OpenItemsPutWhatIsWhole, RefusedItemsAddNothing};
ghost use Rattle.ion_binary.specs.Refusals.{ItemsAreRefusedAsInTrees, NoneIsRefusedWithin};
ghost use Rattle.ion_binary.specs.Held.{WhatIsHeldMoves};
ghost use Rattle.ion_binary.specs.Places.{ClosedSizeByCounts, ClosedSizeByPlaces};
ghost use Rattle.ion_binary.specs.WrittenLimits.{NumbersFit, WhatIsWrittenIsWithinLimits};
ghost use Rattle.ion_binary.specs.WrittenNumbers.{NumbersInTextFit};
ghost use Rattle.ion_binary.specs.WrittenSymbols.{TextsWithinFit, WhatIsWrittenIsResolved};
ghost use Rattle.ion_binary.specs.Spelling.{DeclarationsAreAccepted, WrittenDeclarationsAreRead, HeadersAreShortest, TheFormIsRead, ValuesAreSpelled, WhatIsWithinIsShort};

/// Every body of a scalar that the grammar has is read to its value, and no other body is read.
pub fn bodies_are_read()
    ensures { Bodies }
{}

/// Narrower rules change nothing in what is read, or cut it short by a limit's fault, or at the
/// float that they do not read.
pub fn limits_only_cut_short()
    ensures { Narrow }
{}

/// What is read is a path of the grammar whose items the rules permit, and where the reading
/// finishes, the whole input is.
pub fn what_is_read_is_spelled()
    ensures { Sound }
{}

/// Each step of a reading leads from a path of the grammar to the path with the item that it gives,
/// and it ends where nothing is open and nothing is left.
pub fn each_step_follows()
    ensures { EachStepFollows }
{}

/// Each step of a reading takes an octet or closes a container.
pub fn each_step_falls()
    ensures { EachStepFalls }
{}

/// Whatever path of the grammar a prefix of an input spells, its items are read first, under
/// rules that allow and permit them.
pub fn what_is_spelled_is_read()
    ensures { Complete }
{}

/// A list of version markers and values that an input spells is read to its end, under rules that
/// allow and permit it.
pub fn streams_are_read()
    ensures { StreamsAreRead }
{}

/// The values of a stream are as streams have them: their ints, floats, decimals and timestamps are
/// in range, strings are UTF-8, fields stand in structs alone, and clobs and blobs are bytes where
/// the input is.
pub fn streams_are_raw()
    ensures { StreamsAreRaw }
{}

/// Of two paths of one input, the items of one begin the other's.
pub fn one_path()
    ensures { OnePath }
{}

/// An input is one stream of markers and values at most.
pub fn one_stream()
    ensures { OneStream }
{}

/// Where a reading stops, and not at a limit, the input is no stream of the grammar that the rules
/// permit.
pub fn rightly_refused()
    ensures { RightlyRefused }
{}

/// A reading that stops, and not because the input ends, stops so whatever bytes follow.
pub fn refusals_are_stable()
    ensures { Stable }
{}

/// Where a reading stops, neither at a limit nor because the input ends, no stream of the grammar
/// that the rules permit begins with the input.
pub fn no_stream_begins()
    ensures { NoStreamBegins }
{}

/// Behind each whole value at top level a stream may be cut: what is read to its end is read so,
/// whatever bytes follow, and these are read from there on.
pub fn whole_values_are_cut()
    ensures { WholeValuesAreCut }
{}

/// Wherever a reading comes to the top level, what stands before is read to its end.
pub fn each_end_is_a_cut()
    ensures { EachEndIsACut }
{}

/// Each binary stream begins with a version marker, or is refused at once.
pub fn streams_begin_with_a_marker()
    ensures { StreamsBeginWithMarker }
{}

/// Where more bytes follow, what is read before the end is read first, and a refusal stands, unless
/// it is for the want of bytes.
pub fn more_bytes_go_on()
    ensures { MoreBytesGoOn }
{}

/// Nothing in what is read hangs on where the octets begin, but the places of the items and of the
/// refusal: a part is read as a stream of its own.
pub fn nothing_hangs_on_places()
    ensures anywhere { NothingHangsOnPlaces }
    ensures alone { PartsAreRead }
{}

/// A reading stops at a limit only where the limit is passed, at the next value after what it has
/// read: at the header of a container where so many are open, at a scalar that announces a longer
/// body, or at the annotation that passes it.
pub fn limits_are_exact()
    ensures { ExactLimits }
{}

/// A stream that passes no limit at any place, and that the rules permit, is read to its end.
pub fn streams_within_limits_are_read()
    ensures { WithinLimitsAreRead }
{}

/// A stream of permitted values that passes a limit at some place is not: its reading stops at a
/// limit.
pub fn passed_limits_stop()
    ensures { PassedLimitsStop }
{}

/// The items of whole values put the canonical form of the values, whatever the limit of symbol
/// tables.
pub fn items_put_the_form()
    ensures { ItemsPutTheForm }
{}

/// The items of a value at top level that is open put nothing, no version marker that is due
/// either: what has been put is the canonical form of the whole values before it.
pub fn open_items_put_what_is_whole()
    ensures { OpenItemsPutWhatIsWhole }
{}

/// An item that is not refused adds its octets to those of the items before it.
pub fn items_add_their_octets()
    ensures { ItemsAddTheirOctets }
{}

/// An item that is refused adds nothing.
pub fn refused_items_add_nothing()
    ensures { RefusedItemsAddNothing }
{}

/// The symbol table of an output gives a text its id in the canonical form, or none where the texts
/// would then cost more than the limit.
pub fn ids_are_given()
    ensures { IdsAreGiven }
{}

/// The closed size of a path with an item is the length of its last value, all containers that are
/// open after the item being closed there, where the item may stand there and is no version
/// marker.
pub fn closed_size_is_that_of_the_closing()
    ensures { ClosedSizeIsThatOfTheClosing }
{}

/// An item is refused, after the items of a path with which it makes another, as it is said over
/// trees: at its first symbol with which the texts that have ids cost more than their limit, or else
/// where its value at top level, closed there, is longer than the limit on values.
pub fn items_are_refused_as_in_trees()
    ensures { ItemsAreRefusedAsInTrees }
{}

/// The items of whole values are refused nowhere exactly where the texts of each value, with those
/// that are kept before it, cost no more than their limit, and no value is longer than the limit on
/// values.
pub fn none_is_refused_within()
    ensures { NoneIsRefusedWithin }
{}

/// The closed size is found from the places where the headers of open containers go in, and the
/// number of octets that are there.
pub fn closed_size_by_places()
    ensures { ClosedSizeByPlaces }
{}

/// It is the sum of these octets, one for each header, and one more for each header that is
/// counted, where the counts are those of the headers and the sum is below 2^35.
pub fn closed_size_by_counts()
    ensures { ClosedSizeByCounts }
{}

/// No descriptor of a type code and a length has fewer octets than the header that is written.
pub fn headers_are_shortest()
    ensures { HeadersAreShortest }
{}

/// The octets of the open value without the headers of its open containers, with the places where
/// these go in and the texts that have ids, say what each item puts, what is held after it, and
/// the closed size.
pub fn what_is_held_moves()
    ensures { WhatIsHeldMoves }
{}

/// What is written of a value spells that value in the grammar, from any place on and whatever ids
/// below 2^31 its symbols have, where its numbers are in range, its strings UTF-8, its fields in
/// structs alone, and its octets fewer than 2^62.
pub fn values_are_spelled()
    ensures { ValuesAreSpelled }
{}

/// What is written of a declaration of one text or more, in UTF-8 and of fewer than 2^62 octets, is
/// spelled as one, which leaves the table before it with the declared texts after.
pub fn written_declarations_are_read()
    ensures { WrittenDeclarationsAreRead }
{}

/// Such a declaration is not refused, where the table that it leaves is within the limits.
pub fn declarations_are_accepted()
    ensures { DeclarationsAreAccepted }
{}

/// The canonical form of values is a stream, and they are its user values under every catalogue,
/// where each value can be written, its texts are UTF-8, none is a struct that would be a
/// declaration, each value and declaration is shorter than 2^62 octets, and at most 2^30 texts have
/// ids at once.
pub fn the_form_is_read()
    ensures { TheFormIsRead }
{}

/// Values of which a writer refuses nothing under checked limits are short enough for that: each
/// value and declaration, and the number of texts that have ids at once.
pub fn what_is_within_is_short()
    ensures { WhatIsWithinIsShort }
{}

/// Each decimal and each timestamp in range fits a limit on scalars of 26 or more, as it is written.
pub fn numbers_fit()
    ensures { NumbersFit }
{}

/// What is written of values is read to its end under the limits of the writer, where it refuses
/// nothing of them and they fit: by the depth of their containers, the length of their scalars and
/// of the texts of their symbols, and the number of annotations of each; where one of these texts is
/// declared, the limits allow a declaration.
pub fn what_is_written_is_within_limits()
    ensures { WhatIsWrittenIsWithinLimits }
{}

/// The declarations of what is written are accepted when it is read again under the limits of the
/// writer, whatever the catalogue, and each id stands in its table.
pub fn what_is_written_is_resolved()
    ensures { WhatIsWrittenIsResolved }
{}

/// Each decimal and each timestamp that a text spells under a limit on scalars of 16 or more fits that
/// limit as it is written.
pub fn numbers_in_text_fit()
    ensures { NumbersInTextFit }
{
    numbers_fit();
}

/// Where the limit on scalars is no lower than that on symbols, the texts of all symbols fit of which a
/// writer refuses nothing.
pub fn texts_within_fit()
    ensures { TextsWithinFit }
{}
