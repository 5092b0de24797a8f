//! Laws of the definitions of symbol tables, each the contract of a function that does nothing.
ghost use Rattle.ion_symbols.specs.CatalogLaws.{CatalogsAreRead, CatalogsAreTables, TablesOfUsersAreText, WhyCatalogsAreRefused};
ghost use Rattle.ion_symbols.specs.Laws.{DeclarationsAreRead, OpenUsersAreRead, SymbolsStand, UsersAreRead, WhatIsAccepted, WhatIsDeclared, WhyRefused, WhyUsersStop};
ghost use Rattle.ion_symbols.specs.Onward.{AcceptedStreamsLeadToTheTop, DeclarationsLeaveTheTable, TablesHangOnNoPlace, UsersHangOnNoPlace, UsersReadOn, ValuesKeepTheTable};
ghost use Rattle.ion_symbols.specs.Resolved.{WhatIsAcceptedIsResolved, WhatIsResolvedIsAccepted};
ghost use Rattle.ion_symbols.specs.TextsOfUsers.{TextsOfUsersAreShort};
ghost use Rattle.ion_symbols.specs.UserValues.{UsersOfRawValues};

/// The streaming and the tree definitions of a declaration agree: its items give the table that its
/// tree gives, or its tree's first fault, at each item first its symbols, then what it means.
pub fn declarations_are_read()
    ensures { DeclarationsAreRead }
{}

/// The table that a declaration leaves is the one that it says.
pub fn what_is_declared()
    ensures { WhatIsDeclared }
{}

/// A declaration is refused for a symbol id above the table before it, for a limit, for a field
/// with a meaning that stands twice, or for a shared table that is not in the catalogue.
pub fn why_refused()
    ensures { WhyRefused }
{}

/// A declaration that leaves a table keeps the limits on cost and count, has no symbol id above the
/// table before it, and no field with a meaning twice.
pub fn what_is_accepted()
    ensures { WhatIsAccepted }
{}

/// Where a whole stream is accepted, the items are those of its user values.
pub fn users_are_read()
    ensures { UsersAreRead }
{}

/// Where whatever is read up to a place is accepted, the items are those of the user values before
/// it and of the containers that are open there, or of those values alone where these are a
/// declaration's.
pub fn open_users_are_read()
    ensures { OpenUsersAreRead }
{}

/// Where a whole stream is accepted, no symbol of a user value is above its table or in a gap of
/// it.
pub fn symbols_stand()
    ensures { SymbolsStand }
{}

/// Where reading user values stops, the raw reading stops so, or one of its items is refused there:
/// for a symbol whose id is above the table or, in a user value, in a gap of it; or, in a
/// declaration, for what the item means.
pub fn why_users_stop()
    ensures { WhyUsersStop }
{}

/// A stream is accepted where its symbols are all resolved: no symbol of a user value is above its
/// table or in a gap of it, no annotation of a declaration is above the table before it, and each
/// declaration leaves a table.
pub fn what_is_resolved_is_accepted()
    ensures { WhatIsResolvedIsAccepted }
{}

/// And no other stream is accepted.
pub fn what_is_accepted_is_resolved()
    ensures { WhatIsAcceptedIsResolved }
{}

/// The user values of what a reader gives are such that a user can have: numbers in range, texts in
/// UTF-8, bytes below 256, and no declaration; where the texts of the catalogue are UTF-8.
pub fn users_of_raw_values()
    ensures { UsersOfRawValues }
{}

/// The items of whole user values lead to the same catalogue as their trees, or to the same reason
/// and place.
pub fn catalogs_are_read()
    ensures { CatalogsAreRead }
{}

/// What they lead to without a fault are the tables of the values, in order, and they cost no more
/// than the limit; and values that are such tables lead to them.
pub fn catalogs_are_tables()
    ensures { CatalogsAreTables }
{}

/// Values are refused for one of them, after others that are tables within the limit: for
/// `CatalogEntry`, at its first byte, where it is no table or its table may not stand there; for
/// `SymbolLimit` where its name and slots cost more than the limit with the tables before it.
pub fn why_catalogs_are_refused()
    ensures { WhyCatalogsAreRefused }
{}

/// The texts of the tables that user values are, are UTF-8.
pub fn tables_of_users_are_text()
    ensures { TablesOfUsersAreText }
{}

/// The texts of a user's symbols, but for those of the system symbol table, are no longer than so
/// many bytes where those of the catalogue are, and the strings and symbols of the stream.
pub fn texts_of_users_are_short()
    ensures { TextsOfUsersAreShort }
{}

/// What follows items of a stream is read from where they lead: from the symbol table behind them, and
/// from what is open there.
pub fn users_read_on()
    ensures { UsersReadOn }
{}

/// Where a whole stream is accepted, its items lead to the top level: no declaration and no user value is
/// open behind them.
pub fn accepted_streams_lead_to_the_top()
    ensures { AcceptedStreamsLeadToTheTop }
{}

/// Items of which each is one of a user value leave the symbol table that stands before them.
pub fn values_keep_the_table()
    ensures { ValuesKeepTheTable }
{}

/// The items of the declarations behind the last version marker, read from nothing, give no user
/// value, and leave the symbol table that the whole stream leaves.
pub fn declarations_leave_the_table()
    ensures { DeclarationsLeaveTheTable }
{}

/// Nothing in what a user is given, or in the symbol table, hangs on where the bytes begin, but the
/// places.
pub fn users_hang_on_no_place()
    ensures values { UsersHangOnNoPlace }
    ensures tables { TablesHangOnNoPlace }
{}
