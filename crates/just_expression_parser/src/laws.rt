//! Laws about what is read. Each is a function that does nothing; its contract is the law.

ghost use Rattle.just_expression_parser.specs.Laws.{DerivesWhatIsRead, OneReading, ReadsWhatIsDerived};

/// What the grammar derives up to a token that goes on with no expression, is read.
pub fn reads_what_is_derived()
    ensures { ReadsWhatIsDerived }
{}

/// Tokens are one expression at most: the grammar is unambiguous.
pub fn one_reading()
    ensures { OneReading }
{}

/// What is read, the grammar derives.
pub fn derives_what_is_read()
    ensures { DerivesWhatIsRead }
{}
