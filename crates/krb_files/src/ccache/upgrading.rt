//! Upgrading caches of version 3 to version 4.

ghost use Rattle.std.specs.Prelude.{◌≡◌, ◌≤◌, [], length, map, IfOk, IfErr};
ghost use Rattle.std.specs.Vec.{vec_capacity};
ghost use Rattle.krb_ccache.specs.Spelling.{upgraded};

use krb_ccache::{Cache3, Ccache, Credential, Credential3, Header};
use krb_der::Many;
use std::alloc::Global;

/// Returns the cache in version 4: a header with no fields, the same principal, and the same
/// credentials in the same order without their second encryption types. Returns the cache itself if
/// memory ran out.
pub fn upgrade(alloc: Global, cache: Cache3) -> Result<Ccache, Cache3>
    ensures upgraded { IfOk result (λ made. made ≡ upgraded cache) }
    ensures unchanged { IfErr result (λ same. same ≡ cache) }
{
    let count = cache.credentials.as_slice().len();
    let Ok(mut credentials) = Vec::with_capacity(alloc, count) else {
        return Err(cache);
    };
    move_credentials(cache.credentials.into_vec(), &mut credentials);
    Ok(Ccache {
        header: Header {
            fields: Many::new(Vec::new(alloc)),
        },
        principal: cache.principal,
        credentials: Many::new(credentials),
    })
}

/// Moves credentials within the capacity of `to`.
fn move_credentials(from: Vec<Credential3>, to: &mut Vec<Credential>)
    requires none { to.old.items ≡ [] }
    requires spare_capacity { length from.items ≤ vec_capacity to.old }
    ensures { to.new.items ≡ map (λ c. c.credential) from.items }
{
    for item in from {
        to.push_reserved(item.credential);
    }
}
