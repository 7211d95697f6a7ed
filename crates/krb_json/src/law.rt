//! The laws of the JSON of messages, each the contract of a function that does nothing.

ghost use Rattle.krb_json.specs.Laws.{LinesSpellMessages, LinesSpellOctets};

/// What a line spells is a message of the profile, of no more octets than the limit.
pub fn lines_spell_messages()
    ensures { LinesSpellMessages }
{}

/// Where a line may spell a Ticket, too, it spells the one or the other, and each message as before.
pub fn lines_spell_octets()
    ensures { LinesSpellOctets }
{}
