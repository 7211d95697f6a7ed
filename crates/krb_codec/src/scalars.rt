//! The scalars (RFC 4120, 5.2) as items.

ghost use Rattle.std.specs.Prelude.{pos};
ghost use Rattle.krb_der.specs.inner.PrefixFree.{same_bits, same_integer, same_natural, same_octets};
ghost use Rattle.krb_msg.specs.Grammar.{int32, wide32, microseconds, kerberos_string, octet_string, kerberos_time, kerberos_flags};

use crate::item::Item;
use krb_der::{Der, Flags, Int32, KString, KerberosTime, Micros, Octets, Wide32};

impl Item for Int32 {
    ghost term = { int32 };

    ghost value = { λ number. number };

    fn size(&self) -> u64 {
        Der::size(self)
    }

    fn put(&self, out: &mut Vec<u8>) {
        Der::put(self, out);
    }

    ghost prefix_free = { same_integer };
}

impl Item for Wide32 {
    ghost term = { wide32 };

    ghost value = { λ number. number };

    fn size(&self) -> u64 {
        Der::size(self)
    }

    fn put(&self, out: &mut Vec<u8>) {
        Der::put(self, out);
    }

    ghost prefix_free = { same_integer };
}

impl Item for Micros {
    ghost term = { microseconds };

    ghost value = { λ number. pos number };

    fn size(&self) -> u64 {
        Der::size(self)
    }

    fn put(&self, out: &mut Vec<u8>) {
        Der::put(self, out);
    }

    ghost prefix_free = { same_natural };
}

impl Item for KString {
    ghost term = { kerberos_string };

    ghost value = { λ octets. octets };

    fn size(&self) -> u64 {
        Der::size(self)
    }

    fn put(&self, out: &mut Vec<u8>) {
        Der::put(self, out);
    }

    ghost prefix_free = { same_octets 0x1B };
}

impl Item for Octets {
    ghost term = { octet_string };

    ghost value = { λ octets. octets };

    fn size(&self) -> u64 {
        Der::size(self)
    }

    fn put(&self, out: &mut Vec<u8>) {
        Der::put(self, out);
    }

    ghost prefix_free = { same_octets 0x04 };
}

impl Item for KerberosTime {
    ghost term = { kerberos_time };

    ghost value = { λ octets. octets };

    fn size(&self) -> u64 {
        Der::size(self)
    }

    fn put(&self, out: &mut Vec<u8>) {
        Der::put(self, out);
    }

    ghost prefix_free = { same_octets 0x18 };
}

impl Item for Flags {
    ghost term = { kerberos_flags };

    ghost value = { λ bits. bits };

    fn size(&self) -> u64 {
        Der::size(self)
    }

    fn put(&self, out: &mut Vec<u8>) {
        Der::put(self, out);
    }

    ghost prefix_free = { same_bits };
}
