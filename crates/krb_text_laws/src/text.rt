//! Laws of what is printed. Each is the contract of a function that does nothing.
ghost use Rattle.std.specs.Prelude.{ℕ, Option};
ghost use Rattle.krb_source.specs.declared.unread_why.UnreadWhy.{UnreadWhy};
ghost use Rattle.krb_record.specs.Captures.{unread_line};
ghost use Rattle.krb_record.specs.declared.capture_origin.CaptureOrigin.{CaptureOrigin};
ghost use Rattle.krb_record.specs.declared.form.Base.{Base};
ghost use Rattle.krb_record.specs.Forms.{form_of};
ghost use Rattle.krb_record.specs.Laws.{CaptureEndIsOneLine, CaptureRefusalIsOneLine, CapturedRefusalIsOneLine, CountedStreamEndIsOneLine, DatesAreTheCalendars, EscapeIsGraphic, FileNameIsOneLine, FileRefusalIsOneLine, InputRefusalIsOneLine, IsOneLine, JoinedIsOneLine, LinesHaveNothingLast, LostIsOneLine, MessageRefusalIsOneLine, OriginIsInRange, PasswordIsOneLine, PlainLinesHaveNothingInside, PlainLinesTellNothing, PrincipalTextIsInjective, UnansweredIsOneLine, UnreachableIsOneLine, UntoldMessageRefusalIsOneLine, UntoldStreamRefusalIsOneLine};
ghost use Rattle.krb_text.specs.Laws.{CapturedMessageIsOneLine, CiphersAreNotInCaptures, CiphersAreNotInLines, CiphersAreNotInLinesFrom, CiphersAreNotInRecords, CiphersAreNotInTickets, MessageFromIsOneLine, MessageIsOneLine, StreamEndIsOneLine, TicketIsOneLine};

/// Different components or realms have different texts.
pub fn principal_text_is_injective()
    ensures { PrincipalTextIsInjective }
{}

/// Escaped octets are graphic characters of ASCII: no blank, no line feed.
pub fn escape_is_graphic()
    ensures { EscapeIsGraphic }
{}

/// What is printed of a message or a Ticket, with an origin too, is one line in each form: blanks
/// and graphic characters of ASCII, and a line feed after them.
pub fn message_is_one_line()
    ensures message { MessageIsOneLine }
    ensures from { MessageFromIsOneLine }
    ensures ticket { TicketIsOneLine }
{}

/// What is printed of a refusal, of the end of a stream, and of a file's name, is one line in each
/// form: blanks and graphic characters of ASCII, and a line feed after them.
pub fn end_is_one_line()
    ensures file { FileRefusalIsOneLine }
    ensures message { MessageRefusalIsOneLine }
    ensures untold_message { UntoldMessageRefusalIsOneLine }
    ensures input { InputRefusalIsOneLine }
    ensures stream { StreamEndIsOneLine }
    ensures untold_stream { UntoldStreamRefusalIsOneLine }
    ensures counted { CountedStreamEndIsOneLine }
    ensures name { FileNameIsOneLine }
{}

/// What is printed of each record of a capture, and of its end or of its refusal, is one line in
/// each form: blanks and graphic characters of ASCII, and a line feed after them.
pub fn capture_is_one_line_each()
    ensures message { CapturedMessageIsOneLine }
    ensures refusal { CapturedRefusalIsOneLine }
    ensures joined { JoinedIsOneLine }
    ensures lost { LostIsOneLine }
    ensures unread { (base : Base) (origin : CaptureOrigin) (place : Option ℕ) (octets : ℕ) (reason : UnreadWhy) → OriginIsInRange origin → IsOneLine (unread_line (form_of base) origin place octets reason) }
    ensures password { PasswordIsOneLine }
    ensures unanswered { UnansweredIsOneLine }
    ensures unreachable { UnreachableIsOneLine }
    ensures end { CaptureEndIsOneLine }
    ensures file { CaptureRefusalIsOneLine }
{}

/// The date n days after 1970-01-01, found by counting, is the calendar's.
pub fn dates_are_the_calendars()
    ensures { DatesAreTheCalendars }
{}

/// A line without the names of numbers is that of the record without what is inside of it.
pub fn plain_lines_have_nothing_inside()
    ensures { PlainLinesHaveNothingInside }
{}

/// A line without names is that of a record whose origin tells nothing, whatever was counted of that.
pub fn plain_lines_tell_nothing()
    ensures { PlainLinesTellNothing }
{}

/// A line is that of the record without what objects have last.
pub fn lines_have_nothing_last()
    ensures { LinesHaveNothingLast }
{}

/// What is printed of a message or a Ticket, in each form, with an origin and of a capture too, is as
/// of the same with every octet 00 of its ciphers, its checksum and its user data, of the ciphers
/// and checksums inside of its pre-authentication data and of the data of an error, and of what is
/// not told of these.
pub fn ciphers_are_not_shown()
    ensures record { CiphersAreNotInRecords }
    ensures line { CiphersAreNotInLines }
    ensures from { CiphersAreNotInLinesFrom }
    ensures ticket { CiphersAreNotInTickets }
    ensures capture { CiphersAreNotInCaptures }
{}
