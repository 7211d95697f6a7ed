//! Laws of what is chosen. Each is the contract of a function that does nothing.

ghost use Rattle.krb_choice_laws.specs.Cells.{CellsSayMembers, CellsSayObjects, CellsSayParts, InsideSaysObjects, KindsSayObjects, MembersAreApart};
ghost use Rattle.krb_choice_laws.specs.Listing.{AllKindsAreListed, EndsAreTold, ListingsAreChosen, ListingsAreTold};
ghost use Rattle.krb_choice_laws.specs.Messages.{CapturedCiphersAreNotChosen, CapturedMessagesArePlain, CapturedMessagesSayObjects, CiphersAreNotChosen, KeysAreNotChosen, ListedMessagesArePlain, ListedMessagesAreWhole, MessagesArePlain, MessagesSayObjects, MessagesSayParts, SessionKeysAreNotChosen};
ghost use Rattle.krb_choice_laws.specs.Laws.{AllKindsAreKept, FileNamesAreApart, KeptKindsAreShown, NumberListsAreApart, NumbersAreApart, RowsArePrintable, StringListsAreApart, StringsAreApart, StringsAreThere, WrittenIsChosen};
ghost use Rattle.krb_choice_laws.specs.Records.{CapturesArePlain, EndsArePlain, FilesArePlain, LabelsArePlain, TicketsArePlain};
ghost use Rattle.krb_choice_laws.specs.Says.{CapturesSayObjects, EndsSayObjects, FilesSayObjects, RowsHaveObjects};

/// What a choice writes of the text of a record, in the form in which it lists records, is what it has of
/// the record itself: nothing if it does not keep it, and else its rows, or its line or its object.
pub fn written_is_chosen()
    ensures { WrittenIsChosen }
{}

/// Each row is blanks and graphic characters of ASCII in as many cells as there are columns, a tab between
/// two, and a line feed.
pub fn rows_are_printable()
    ensures { RowsArePrintable }
{}

/// Strings that differ, alone or in lists, have cells that differ, and none has the cell of what is
/// absent; so have numbers of 64 bits, and names of files that are not empty.
pub fn cells_are_apart()
    ensures strings { StringsAreApart }
    ensures string_lists { StringListsAreApart }
    ensures names { FileNamesAreApart }
    ensures there { StringsAreThere }
    ensures numbers { NumbersAreApart }
    ensures number_lists { NumberListsAreApart }
{}

/// A cell says what the object of its record says: it is a function of the member at its path, and
/// members of one type that differ, and are no objects, have cells that differ.
pub fn cells_say_members()
    ensures field { CellsSayMembers }
    ensures object { CellsSayObjects }
    ensures part { CellsSayParts }
    ensures kind { KindsSayObjects }
    ensures kinds { InsideSaysObjects }
    ensures apart { MembersAreApart }
    ensures message { MessagesSayObjects }
    ensures capture { CapturedMessagesSayObjects }
    ensures inside { MessagesSayParts }
{}

/// So do the cells of other records: of refusals and ends, of what is found in captures, and of keytabs
/// and caches. Rows are made of the records of which objects are made.
pub fn records_say_objects()
    ensures end { EndsSayObjects }
    ensures capture { CapturesSayObjects }
    ensures file { FilesSayObjects }
    ensures same { RowsHaveObjects }
{}

/// A message that a choice keeps is of a kind that is shown in the form of the choice, and a choice by
/// kinds keeps each record of one of these.
pub fn kinds_are_kept()
    ensures shown { KeptKindsAreShown }
    ensures all { AllKindsAreKept }
{}

/// Of a listing, in the form in which a choice lists records, is written what it has of each record, in
/// order; with all kinds, the listing.
pub fn listings_are_chosen()
    ensures each { ListingsAreChosen }
    ensures all { AllKindsAreListed }
{}

/// Nothing is lost in silence: what is told of a listing is the line that tells of its last record,
/// unless that is kept; and each record has such a line that ends a listing of which something was
/// refused, lost or left unread.
pub fn listings_are_told()
    ensures told { ListingsAreTold }
    ensures ends { EndsAreTold }
{}

/// The texts of the record of a message are printable, with an origin and of a capture too: so the laws
/// above hold of it; and what a choice has of a message as it is listed, it has of the whole message.
pub fn messages_are_plain()
    ensures message { MessagesArePlain }
    ensures capture { CapturedMessagesArePlain }
    ensures listed { ListedMessagesArePlain }
    ensures whole { ListedMessagesAreWhole }
{}

/// So are those of each other record that is listed, in each form, and also with the name of its file.
pub fn records_are_plain()
    ensures ticket { TicketsArePlain }
    ensures end { EndsArePlain }
    ensures capture { CapturesArePlain }
    ensures file { FilesArePlain }
    ensures label { LabelsArePlain }
{}

/// What is written of messages, keytabs and caches is as of the same with every octet 00 of each key,
/// cipher and checksum.
pub fn keys_are_not_chosen()
    ensures message { CiphersAreNotChosen }
    ensures capture { CapturedCiphersAreNotChosen }
    ensures keytab { KeysAreNotChosen }
    ensures cache { SessionKeysAreNotChosen }
{}
