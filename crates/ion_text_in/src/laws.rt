//! Laws of the grammar and the reading of the text form, each the contract of a function that does
//! nothing.
ghost use Rattle.ion_text_in.specs.Beginnings.{IdentifiersAreCut, IdentifiersEnd, NumbersAreCut, NumbersEnd, OneBegins, OperatorsAreCut, OperatorsEnd, WhatBegins, WhereNoneBegins};
ghost use Rattle.ion_text_in.specs.Firm.{CutAfterFirm, CutWhereOneBegins, FirmEnds, LinesAreReadApart, NoneGoesOn, NothingHangsOnPlaces, PartsAreTexts};
ghost use Rattle.ion_text_in.specs.Meaning.{Base64IsRead, BlobsAreBase64, BoolTextIsRead, ClobTextIsRead, DecimalTextIsRead, FloatTextIsRead, IdIsRead, IdWordIsRead, IntTextIsRead, NullTextIsRead, PlainSymbolIsRead, QuotedSymbolIsRead, StringTextIsRead, TimestampTextIsRead, TokensAreRaw, TokensWithinAreRead};
ghost use Rattle.ion_text_in.specs.ReadWithin.{ValuesReadAreWithin, WhatIsReadIsWithin};
ghost use Rattle.ion_text_in.specs.Scanning.{BlanksChangeNoStep, EachPieceTakes, GroupsInTurn, PiecesInTurn, PlainBytesAreSpelled, SegmentsInTurn};
ghost use Rattle.ion_text_in.specs.Laws.{Complete, EachStepFalls, EachStepFollows, ExactLimits, Narrow, OnePath, OneStream, PathsWithinAreRead, RightlyRefused, Sound, StreamsAreRaw, StreamsAreRead, StreamsWithinAreRead, StrictIsReadAlike, WithinLimitsAreRead};

/// What is read is a path of the grammar whose items the rules permit, and where the reading
/// finishes, the whole input is a stream.
pub fn what_is_read_is_spelled()
    ensures { Sound }
{}

/// Each step of a reading leads from a path of the grammar to the path with the item that it gives,
/// and it ends where nothing is open and nothing but blanks is left.
pub fn each_step_follows()
    ensures { EachStepFollows }
{}

/// Each step of a reading takes a byte.
pub fn each_step_falls()
    ensures { EachStepFalls }
{}

/// Whatever path of the grammar a prefix of an input spells, its items are read first, under
/// rules that allow and permit them.
pub fn what_is_spelled_is_read()
    ensures { Complete }
{}

/// A stream is read to its end, under rules that allow and permit it.
pub fn streams_are_read()
    ensures { StreamsAreRead }
{}

/// What stands before a place, and a stream, is read where limits allow what stands there: no token
/// counts more, no annotations cost more, and no container is deeper.
pub fn what_is_within_limits_is_read()
    ensures paths { PathsWithinAreRead }
    ensures streams { StreamsWithinAreRead }
{}

/// A stream that passes no limit at any place is read to its end.
pub fn streams_within_limits_are_read()
    ensures { WithinLimitsAreRead }
{}

/// What a stream has at top level is what a writer may be given: numbers in range, texts in UTF-8,
/// lobs of bytes, and fields in structs alone.
pub fn streams_are_raw()
    ensures { StreamsAreRaw }
{}

/// Narrower rules change nothing in what is read, or cut it short at the token, container or
/// annotation that passes them, or at the float that they do not read.
pub fn limits_only_cut_short()
    ensures { Narrow }
{}

/// Where a reading stops, and not at a limit, the input is no stream of the grammar that the rules
/// permit.
pub fn rightly_refused()
    ensures { RightlyRefused }
{}

/// What is read to its end where floats are not read is read alike where they are.
pub fn strict_is_read_alike()
    ensures { StrictIsReadAlike }
{}

/// A reading stops at a limit only where the limit is passed: at a token that counts more bytes, at a
/// container where so many are open, or at the annotation that passes it.
pub fn limits_are_exact()
    ensures { ExactLimits }
{}

/// Of two paths of one input, the items of one begin the other's.
pub fn one_path()
    ensures { OnePath }
{}

/// An input is one stream of version markers and values at most.
pub fn one_stream()
    ensures { OneStream }
{}

/// The text of a null is a token that means this null.
pub fn null_text_is_read()
    ensures { NullTextIsRead }
{}

/// The text of a truth value is a token that means it.
pub fn bool_text_is_read()
    ensures { BoolTextIsRead }
{}

/// The text of an int is a token that means this int.
pub fn int_text_is_read()
    ensures { IntTextIsRead }
{}

/// The text of a decimal is a token that means this decimal.
pub fn decimal_text_is_read()
    ensures { DecimalTextIsRead }
{}

/// The text of a float is a token that means this float.
pub fn float_text_is_read()
    ensures { FloatTextIsRead }
{}

/// The text of a timestamp is a token that means this timestamp.
pub fn timestamp_text_is_read()
    ensures { TimestampTextIsRead }
{}

/// What is read as a blob is the base64 of its bytes, with white space anywhere, and the braces that
/// close it.
pub fn blobs_are_base64()
    ensures { BlobsAreBase64 }
{}

/// The base64 of some bytes, with white space anywhere, between double braces is read as the blob of
/// these bytes.
pub fn base64_is_read()
    ensures { Base64IsRead }
{}

/// Characters between double quotes are a token that means the bytes that they spell, by themselves
/// or by escapes.
pub fn string_text_is_read()
    ensures { StringTextIsRead }
{}

/// Characters between single quotes are a token that means the symbol that they spell.
pub fn quoted_symbol_is_read()
    ensures { QuotedSymbolIsRead }
{}

/// Characters between double quotes in double braces, with white space around them, are a token that
/// means the clob of the bytes that they spell.
pub fn clob_text_is_read()
    ensures { ClobTextIsRead }
{}

/// An identifier that means nothing else is a token that means the symbol of its bytes.
pub fn plain_symbol_is_read()
    ensures { PlainSymbolIsRead }
{}

/// A dollar sign and digits alone are a token that means the symbol of the id that they say, and so
/// are a dollar sign and the digits of each id.
pub fn id_is_read()
    ensures words { IdWordIsRead }
    ensures ids { IdIsRead }
{}

/// What a token means is in range, UTF-8, and bytes.
pub fn tokens_are_raw()
    ensures { TokensAreRaw }
{}

/// Under a limit a token is read exactly where it counts no more, and else refused at its first byte.
pub fn tokens_within_a_limit_are_read()
    ensures { TokensWithinAreRead }
{}

/// A number or timestamp goes on up to the input's end, one of the fifteen numeric stop characters or
/// a comment, and no further.
pub fn what_ends_a_number()
    ensures ends { NumbersEnd }
    ensures cut { NumbersAreCut }
{}

/// An identifier goes on up to a byte that is in none, an operator up to a byte that is in none or a
/// comment, and either up to the input's end, and no further.
pub fn what_ends_a_symbol()
    ensures identifiers { IdentifiersEnd }
    ensures words_cut { IdentifiersAreCut }
    ensures operators { OperatorsEnd }
    ensures operators_cut { OperatorsAreCut }
{}

/// The kind of token that is read at a place is the one that begins there by its first bytes; no two
/// begin at one place, and where none does, none is read.
pub fn what_begins_a_token()
    ensures computed { WhatBegins }
    ensures none { WhereNoneBegins }
    ensures one { OneBegins }
{}

/// A step from after blanks is the step from before them.
pub fn blanks_change_no_step()
    ensures { BlanksChangeNoStep }
{}

/// What stands between quotes is read piece by piece, each of which takes a byte and twelve at most,
/// segment by segment, and what stands in a blob group by group, without a bound on how many.
pub fn parts_follow_in_turn()
    ensures takes { EachPieceTakes }
    ensures pieces { PiecesInTurn }
    ensures segments { SegmentsInTurn }
    ensures groups { GroupsInTurn }
{}

/// Bytes that need no escape and close nothing, told one by one, spell themselves between quotes,
/// unless the limit is passed among them.
pub fn plain_bytes_are_spelled()
    ensures { PlainBytesAreSpelled }
{}

/// Where a stream is read to its end, the limits allow what stands in it: no token counts more, no
/// annotations cost more, and no container is deeper.
pub fn what_is_read_is_within_limits()
    ensures { WhatIsReadIsWithin }
{}

/// And the values of the stream are within the limits: the depth of their containers, their
/// annotations, the texts of their symbols, their strings and lobs, and what spells their numbers.
pub fn values_read_are_within_limits()
    ensures { ValuesReadAreWithin }
{
    what_is_read_is_within_limits();
}

/// Where the first bytes of a text are read to their end, which is the end of a line, the text may be
/// cut behind them, and each part is read by itself, unless the last value before the cut goes on after
/// it: a symbol by two colons, a string by a further segment.
pub fn lines_are_read_apart()
    ensures apart { LinesAreReadApart }
    ensures begun { NoneGoesOn }
    ensures firm { FirmEnds }
{}

/// So, where the first bytes are read to their end and a line ends there, the text may be cut if what
/// follows begins with a byte with which no value goes on. Whatever follows, it may be cut if the last
/// value before is no symbol, no string and no version marker.
pub fn lines_are_cut()
    ensures begun { CutWhereOneBegins }
    ensures firm { CutAfterFirm }
{}

/// Nothing in what is read hangs on where the bytes begin, but the places of the items and of the
/// refusal: a part is read as a text of its own.
pub fn nothing_hangs_on_places()
    ensures anywhere { NothingHangsOnPlaces }
    ensures alone { PartsAreTexts }
{}
