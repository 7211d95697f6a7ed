//! Credential caches that are no files, by the types that their names begin with.

ghost use Rattle.std.specs.Prelude.{◌≡◌};
ghost use Rattle.std.specs.Option.{option_map};
ghost use Rattle.krb_words.specs.CacheTypes.{other_cache};

/// What is said of a cache of the type `KCM`.
const KCM: &str =
    "a daemon keeps this cache; to copy it into a file: kvno -c NAME --out-cache FILE krbtgt/REALM (MIT), or kcc copy_cred_cache NAME FILE (Heimdal)";

/// What is said of a cache of the type `KEYRING`.
const KEYRING: &str =
    "the kernel keeps this cache; to copy it into a file: kvno -c NAME --out-cache FILE krbtgt/REALM (MIT)";

/// What is said of a cache of the type `API`.
const API: &str =
    "a service of the system keeps this cache; to copy it into a file: kvno -c NAME --out-cache FILE krbtgt/REALM (MIT), or kcc copy_cred_cache NAME FILE (Heimdal)";

/// What is said of a cache of the type `MEMORY`.
const MEMORY: &str =
    "this cache is in the memory of the program that made it, and no other program reads it; to get one in a file: kinit -c FILE";

/// Returns what a name that cannot be opened is, and how to get a file of it, if it is that of a
/// credential cache of a type that MIT's and Heimdal's libraries have and that is no file.
pub(crate) fn other_cache(name: &[u8]) -> Option<&'static str>
    ensures { option_map (λ text. text.now) result ≡ other_cache name.now }
{
    if name.starts_with(b"KCM:") {
        Some(KCM)
    } else if name.starts_with(b"KEYRING:") {
        Some(KEYRING)
    } else if name.starts_with(b"API:") {
        Some(API)
    } else if name.starts_with(b"MEMORY:") {
        Some(MEMORY)
    } else {
        None
    }
}
