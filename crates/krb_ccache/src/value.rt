//! Credential caches and what they hold.

use krb_der::{KString, Many, Octets};

/// A credential cache of version 4: its header, the principal whose credentials it holds, and the
/// credentials in order.
#[derive(Drop)]
pub struct Ccache {
    /// The header, which is about the cache as a whole.
    pub header: Header,
    /// The default principal, whose credentials these are.
    pub principal: FilePrincipal,
    /// The credentials, configuration entries among them.
    pub credentials: Many<Credential>,
}

/// A credential cache of version 3, which has no header.
#[derive(Drop)]
pub struct Cache3 {
    /// The default principal, whose credentials these are.
    pub principal: FilePrincipal,
    /// The credentials, configuration entries among them.
    pub credentials: Many<Credential3>,
}

/// The header of a cache.
#[derive(Drop)]
pub struct Header {
    /// Its fields, in order.
    pub fields: Many<HeaderField>,
}

/// A field of the header. A field whose tag is not known is kept as it is.
#[derive(Drop)]
pub struct HeaderField {
    /// The kind of field: 1 is the offset of the KDC's clock.
    pub tag: u16,
    /// The octets of the field.
    pub value: Octets,
}

/// A principal, as a cache has it.
#[derive(Drop)]
pub struct FilePrincipal {
    /// The type of the name (RFC 4120, 6.2).
    pub name_type: i32,
    /// The realm.
    pub realm: KString,
    /// The components of the name, in order.
    pub components: Many<KString>,
}

/// Octets of a kind: an address (RFC 4120, 5.2.5), or an element of authorization data (5.2.6).
#[derive(Drop)]
pub struct Typed {
    /// The kind.
    pub kind: u16,
    /// The octets.
    pub octets: Octets,
}

/// A ticket and its session key, or a configuration entry. It has no `Debug`, so that no text shows
/// an octet of the key. Times are in seconds since 1970-01-01T00:00:00Z.
#[derive(Drop)]
pub struct Credential {
    /// The principal whose credential it is.
    pub client: FilePrincipal,
    /// The service that it is for.
    pub server: FilePrincipal,
    /// The encryption type of the key (RFC 3961). No number is refused.
    pub enctype: u16,
    /// The session key.
    pub key: Octets,
    /// When the client was authenticated.
    pub authtime: u32,
    /// When the ticket becomes valid.
    pub starttime: u32,
    /// When it expires.
    pub endtime: u32,
    /// Until when it can be renewed.
    pub renew_till: u32,
    /// Whether the ticket is for user-to-user authentication, encrypted in a session key: 0 if it
    /// is not.
    pub is_skey: u8,
    /// The flags of the ticket (RFC 4120, 5.3); bit 0 is the most significant.
    pub flags: u32,
    /// The addresses that the ticket can be used from; if there are none, it can be used from any.
    pub addresses: Many<Typed>,
    /// The authorization data that were requested.
    pub authdata: Many<Typed>,
    /// The ticket as DER, or the value of a configuration entry: see
    /// [`ticket_view_of`](crate::ticket_view_of).
    pub ticket: Octets,
    /// A second ticket, for user-to-user authentication.
    pub second_ticket: Octets,
}

/// A credential of version 3, which has the encryption type twice. It has no `Debug` either.
#[derive(Drop)]
pub struct Credential3 {
    /// The credential, with the first encryption type.
    pub credential: Credential,
    /// The second encryption type, which may differ from the first.
    pub again: u16,
}

ghost use Rattle.std.specs.Prelude.{◌≡◌};
ghost use Rattle.krb_ccache.specs.Spelling.{first_is, is_config, offset};

/// The realm of a configuration entry's server.
const CONFIG_REALM: &[u8] = b"X-CACHECONF:";

/// The first component of a configuration entry's server.
const CONFIG_NAME: &[u8] = b"krb5_ccache_conf_data";

impl Header {
    /// Returns by how much the KDC's clock was ahead, in seconds and microseconds. It is in the
    /// first field that has both tag 1 and eight octets.
    pub fn offset(&self) -> Option<(i32, i32)>
        ensures { result ≡ offset self.now }
    {
        for field in self.fields.as_slice() {
            if field.tag == 1 {
                if let [a, b, c, d, e, f, g, h] = field.value.as_slice() {
                    let seconds = i32::from_be_bytes([*a, *b, *c, *d]);
                    let microseconds = i32::from_be_bytes([*e, *f, *g, *h]);
                    return Some((seconds, microseconds));
                }
            }
        }
        None
    }
}

/// Returns whether there is a first string and it has these octets.
fn first_is(strings: &[KString], octets: &[u8]) -> bool
    ensures { result ≡ first_is strings.now octets.now }
{
    match strings.first() {
        Some(first) => first.octets() == octets,
        None => false,
    }
}

impl Credential {
    /// Returns whether this is a configuration entry and not a credential: the realm of its server
    /// is `X-CACHECONF:`, and the first component of the server's name is `krb5_ccache_conf_data`.
    pub fn is_config(&self) -> bool
        ensures { result ≡ is_config self.now }
    {
        self.server.realm.octets() == CONFIG_REALM
            && first_is(self.server.components.as_slice(), CONFIG_NAME)
    }
}
