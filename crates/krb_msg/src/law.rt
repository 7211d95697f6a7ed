//! Laws of grammars, of the messages, of their DER and of the judgement of octets. Each is the
//! contract of a function that does nothing.
ghost use Rattle.krb_msg.specs.Laws.{WholeIsValue, ValueIsWhole, ValueOfDerIsValue, ItemIsNotTruncated, WholeIsOneOf, RefusalIsFinal, AllIsDecided, RefusalIsNotTruncated, OneOfIsWhole, OneOfIsOctets, RefusalIsNoneOf, OneOfIsPrefixFree, MessagesAreGrammar, MessagesNest, WholeIsMessage, MessageIsWhole, MessageOfDerIsMessage, RefusalIsRight, DerIsPrefixFree, MessageRoundTrips, StrictIsNarrower, StrictHasNoNotes, LenientHasNoCharset, StrictIsLenient};

/// What is judged whole as an item of a term, a Ticket say, is the DER of one of its values.
pub fn whole_is_value()
    ensures { WholeIsValue }
{}

/// The DER of a value of a term is judged whole as an item of the term.
pub fn value_is_whole()
    ensures { ValueIsWhole }
{}

/// What is read of the DER of a value is the value.
pub fn value_of_der_is_value()
    ensures { ValueOfDerIsValue }
{}

/// No octets of an item are refused as `Truncated`.
pub fn item_is_not_truncated()
    ensures { ItemIsNotTruncated }
{}

/// By any messages, what is judged whole is the DER of a value of one of them.
pub fn whole_is_one_of()
    ensures { WholeIsOneOf }
{}

/// By any messages, a refusal is the same whatever follows the octet that it is at, and comes
/// with that octet.
pub fn refusal_is_final()
    ensures { RefusalIsFinal }
{}

/// By any messages, with all the octets present something is decided.
pub fn all_is_decided()
    ensures { AllIsDecided }
{}

/// By any messages, no octets are refused as `Truncated`; a stream that ends inside a frame is.
pub fn refusal_is_not_truncated()
    ensures { RefusalIsNotTruncated }
{}

/// By any grammar, the DER of a value of one of its messages is judged whole.
pub fn one_of_is_whole()
    ensures { OneOfIsWhole }
{}

/// The DER of a value of one of a grammar's messages is octets.
pub fn one_of_is_octets()
    ensures { OneOfIsOctets }
{}

/// By any grammar, no DER of a value of one of its messages begins with the octets up to and with
/// one that is refused.
pub fn refusal_is_none_of()
    ensures { RefusalIsNoneOf }
{}

/// In any grammar, no DER of a value of one of its messages begins another's, and different values
/// have different DER.
pub fn one_of_is_prefix_free()
    ensures { OneOfIsPrefixFree }
{}

/// The messages of a profile are a grammar.
pub fn messages_are_grammar()
    ensures { MessagesAreGrammar }
{}

/// The items of a message nest 13 deep at most, the innermost counted.
pub fn messages_nest()
    ensures { MessagesNest }
{}

/// What is judged whole is the DER of a message of the profile.
pub fn whole_is_message()
    ensures { WholeIsMessage }
{}

/// The DER of a message of the profile is judged whole.
pub fn message_is_whole()
    ensures { MessageIsWhole }
{}

/// What is read of the DER of a message is the message.
pub fn message_of_der_is_message()
    ensures { MessageOfDerIsMessage }
{}

/// No message begins with the octets up to and with one that is refused.
pub fn refusal_is_right()
    ensures { RefusalIsRight }
{}

/// No message's DER begins another's, and different messages have different DER.
pub fn der_is_prefix_free()
    ensures { DerIsPrefixFree }
{}

/// A message is in the strict profile exactly if it is in the lenient one and keeps the strict
/// rules.
pub fn strict_is_narrower()
    ensures { StrictIsNarrower }
{}

/// A message keeps the strict rules exactly if none of the notes 1 to 4 holds in it.
pub fn strict_has_no_notes()
    ensures { StrictHasNoNotes }
{}

/// The lenient profile refuses no octets as `Charset`.
pub fn lenient_has_no_charset()
    ensures { LenientHasNoCharset }
{}

/// What the strict profile judges whole, the lenient one does.
pub fn strict_is_lenient()
    ensures { StrictIsLenient }
{}

/// A message comes back from its value.
pub fn message_round_trips()
    ensures { MessageRoundTrips }
{}
