//! Laws of the definitions that the contracts cite, each the contract of a function that does
//! nothing.
ghost use Rattle.ion_value.specs.Laws.{VarUIntIsUnique, VarIntIsUnique, VarUIntBytesAreRead, VarIntBytesAreRead, IntBytesAreRead, DecimalBodies, DecimalBytesAreRead, DecimalBytesAreShortest, UtcIsBack, LocalIsBack, TimestampBytesAreRead, TimestampBytesAreShortest, TimestampTextIsRead, NoNumberIsATimestamp, PathsAreTheirItems, IntTextIsRead, DecimalTextIsRead, OneShape};

/// At most one VarUInt stands at the front of a list of octets, and it spells one number.
pub fn var_uint_is_unique()
    ensures { VarUIntIsUnique }
{}

/// At most one VarInt stands at the front of a list of octets, and it spells one sign and one
/// magnitude.
pub fn var_int_is_unique()
    ensures { VarIntIsUnique }
{}

/// The octets that are written for a number below 2^63 are a VarUInt and spell it.
pub fn var_uint_bytes_are_read()
    ensures { VarUIntBytesAreRead }
{}

/// The octets that are written for a sign and a magnitude below 2^62 are a VarInt and spell them.
pub fn var_int_bytes_are_read()
    ensures { VarIntBytesAreRead }
{}

/// Reading the sign and the octets that are written for an int gives the int.
pub fn int_bytes_are_read()
    ensures { IntBytesAreRead }
{}

/// A decimal is read from exactly the bodies that spell it, where it is within its range, and from
/// none where it is not.
pub fn decimal_bodies()
    ensures { DecimalBodies }
{}

/// Reading the body that is written for a decimal gives the decimal.
pub fn decimal_bytes_are_read()
    ensures { DecimalBytesAreRead }
{}

/// No other body that is read to a decimal is shorter than the one that is written for it.
pub fn decimal_bytes_are_shortest()
    ensures { DecimalBytesAreShortest }
{}

/// What goes from UTC to local time comes back to UTC.
pub fn utc_is_back()
    ensures { UtcIsBack }
{}

/// What goes from local time to UTC comes back to local time.
pub fn local_is_back()
    ensures { LocalIsBack }
{}

/// The body that is written of a timestamp is read as that timestamp.
pub fn timestamp_bytes_are_read()
    ensures { TimestampBytesAreRead }
{}

/// No octets that are read to a timestamp are fewer than those that are written for it.
pub fn timestamp_bytes_are_shortest()
    ensures { TimestampBytesAreShortest }
{}

/// A path of open containers is known by its items.
pub fn a_path_is_its_items()
    ensures { PathsAreTheirItems }
{}

/// The text of an int is read as that int.
pub fn int_text_is_read()
    ensures { IntTextIsRead }
{}

/// The text of a decimal is read as that decimal, with its precision and the sign of zero.
pub fn decimal_text_is_read()
    ensures { DecimalTextIsRead }
{}

/// No run of text has both the shape of an int and that of a decimal or a float.
pub fn one_shape()
    ensures { OneShape }
{}

/// Reading the text that is written for a timestamp gives the timestamp.
pub fn timestamp_text_is_read()
    ensures { TimestampTextIsRead }
{}

/// No run of text is both a timestamp and an int, a decimal or a float.
pub fn no_number_is_a_timestamp()
    ensures { NoNumberIsATimestamp }
{}
