//! Laws of what is printed in the form Json, each the contract of a function that does nothing.

ghost use Rattle.krb_laws.specs.JsonFiles.{FilesAreJson};
ghost use Rattle.krb_laws.specs.JsonLaws.{CapturesAreJson, EndsAreJson, MessagesAreJson, RecordsAreJson};

use krb_judge::law::refusals_are_inside;

/// The text of a record is the JSON text (RFC 8259) of one value, which is its object, and no object
/// in that has a name twice: for each record whose kind and names are plain, no two members of
/// which may have one name, and whose numbers have at most 64 digits.
pub fn records_are_json()
    ensures { RecordsAreJson }
{}

/// So is the text of each message and of each Ticket, with an origin too.
pub fn messages_are_json()
    ensures { MessagesAreJson }
{}

/// So is the text of each refusal, of each end of a stream and of the name of each file.
pub fn ends_are_json()
    ensures { EndsAreJson }
{}

/// So is the text of each record of a capture.
pub fn captures_are_json()
    ensures { CapturesAreJson }
{}

/// So is the text of each record of a keytab that octets spell, of each cache and credential that
/// they spell, and of their ends.
pub fn files_are_json()
    ensures { FilesAreJson }
{
    refusals_are_inside();
}
