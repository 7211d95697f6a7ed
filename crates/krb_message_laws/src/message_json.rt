//! The laws of the JSON of messages, each the contract of a function that does nothing.

ghost use Rattle.krb_message_laws.specs.Spellings.{BlanksAndEscapesChangeNothing};
ghost use Rattle.krb_json.specs.Laws.{MessagesAreNamed, SpelledFits, SpellingChangesNothing, TextsAreJson, TextsAreShort, TextsComeBack, TextsDiffer, UnencryptedChangesNothing, ValuesComeBack};

/// Each field of each message has a name of its own.
pub fn messages_are_named()
    ensures { MessagesAreNamed }
{}

/// Each value is spelled by its JSON.
pub fn values_come_back()
    ensures { ValuesComeBack }
{}

/// What a JSON value spells is a value of the grammar.
pub fn spelled_fits()
    ensures { SpelledFits }
{}

/// The text of a message is its JSON, of printable ASCII alone, and no object has a name twice.
pub fn texts_are_json()
    ensures { TextsAreJson }
{}

/// The text of a message has at most 8 times as many octets as the message, and 65536.
pub fn texts_are_short()
    ensures { TextsAreShort }
{}

/// Each message is spelled by its text.
pub fn texts_come_back()
    ensures { TextsComeBack }
{}

/// Different messages have different texts.
pub fn texts_differ()
    ensures { TextsDiffer }
{}

/// Messages that differ in nothing but what is not encrypted have the same path to it, and the same
/// text if there is none.
pub fn unencrypted_changes_nothing()
    ensures { UnencryptedChangesNothing }
{}

/// What a line spells it spells in any order of members and with hexadecimal digits of either case.
pub fn spelling_changes_nothing()
    ensures { SpellingChangesNothing }
{}

/// Lines that differ in the blanks round their marks, words and strings and in the escapes of their
/// strings alone spell the same message, or have the same fault.
pub fn blanks_and_escapes_change_nothing()
    ensures { BlanksAndEscapesChangeNothing }
{}
