//! Laws of the scan of a message's octets. Each is the contract of a function that does nothing.
ghost use Rattle.krb_scan.specs.Laws.{MarksAreFew, ScanJudges, WholeHasMarksOfMessage, WholeHasMarksOfValue};

/// By any messages, the verdict of a scan of octets is their judgement.
pub fn scan_judges()
    ensures { ScanJudges }
{}

/// By any grammar, the DER of a value of one of its messages is read as whole, with the marks of
/// the value.
pub fn whole_has_marks_of_value()
    ensures { WholeHasMarksOfValue }
{}

/// The marks of the DER of a message are those of the message.
pub fn whole_has_marks_of_message()
    ensures { WholeHasMarksOfMessage }
{}

/// Twice the marks is at most the octets.
pub fn marks_are_few()
    ensures { MarksAreFew }
{}
