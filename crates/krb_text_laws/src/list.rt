//! Laws of what is printed of keytabs and caches. Each is the contract of a function that does
//! nothing.
ghost use Rattle.krb_list.specs.Laws.{CacheEndIsOneLine, CacheIsOneLine, ConfigValueIsNotShown, CredentialIsOneLine, CredentialKeyIsNotShown, KeysAreNotShown, KeytabEndIsOneLine, RecordIsOneLine, RecordKeyIsNotShown, SessionKeys3AreNotShown, SessionKeysAreNotShown, TicketCipherIsNotShown};

/// What is printed of a record of a keytab, and of its end, is one line in each form: blanks and
/// graphic characters of ASCII, and a line feed after them.
pub fn keytab_is_one_line_each()
    ensures record { RecordIsOneLine }
    ensures end { KeytabEndIsOneLine }
{}

/// What is printed of a cache, of a credential, and of a cache's end, is one line in each form:
/// blanks and graphic characters of ASCII, and a line feed after them.
pub fn ccache_is_one_line_each()
    ensures cache { CacheIsOneLine }
    ensures credential { CredentialIsOneLine }
    ensures end { CacheEndIsOneLine }
{}

/// A keytab, in each form, and each record print the same if every octet of each key is 00.
pub fn keys_are_not_shown()
    ensures keytab { KeysAreNotShown }
    ensures record { RecordKeyIsNotShown }
{}

/// What is printed of a cache, in version 4 or 3 and in each form, and of each credential, is as of
/// the same with every octet of each key 00; of a credential also as with other octets in the cipher
/// of its ticket; and of a configuration entry whose value is not shown as with another value of as
/// many octets.
pub fn session_keys_are_not_shown()
    ensures cache { SessionKeysAreNotShown }
    ensures cache3 { SessionKeys3AreNotShown }
    ensures credential { CredentialKeyIsNotShown }
    ensures ticket { TicketCipherIsNotShown }
    ensures config { ConfigValueIsNotShown }
{}
