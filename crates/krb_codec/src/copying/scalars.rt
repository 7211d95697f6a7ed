//! The scalars (RFC 4120, 5.2) copied out of views of them.

ghost use Rattle.krb_msg.specs.Basic.{micros_of, flags_of_view};

use crate::copying::{FromPlainView, FromView};
use krb_der::{Flags, Int32, KString, KerberosTime, Memory, Micros, Octets, Wide32};
use krb_msg::FlagsView;
use std::alloc::Global;

impl<'a> FromView<'a> for Int32 {
    ghost copied = { λ number. number };

    fn from_view(_alloc: Global, seen: &i64) -> Result<Int32, Memory> {
        Ok(Int32::from_plain_view(seen))
    }
}

impl<'a> FromPlainView<'a> for Int32 {
    fn from_plain_view(seen: &i64) -> Int32 {
        Int32::new(*seen as i32)
    }
}

impl<'a> FromView<'a> for Wide32 {
    ghost copied = { λ number. number };

    fn from_view(_alloc: Global, seen: &i64) -> Result<Wide32, Memory> {
        Ok(Wide32::from_plain_view(seen))
    }
}

impl<'a> FromPlainView<'a> for Wide32 {
    fn from_plain_view(seen: &i64) -> Wide32 {
        match Wide32::new(*seen) {
            Some(wide) => wide,
            None => unreachable!(),
        }
    }
}

impl<'a> FromView<'a> for Micros {
    ghost copied = { micros_of };

    fn from_view(_alloc: Global, seen: &i64) -> Result<Micros, Memory> {
        Ok(Micros::from_plain_view(seen))
    }
}

impl<'a> FromPlainView<'a> for Micros {
    fn from_plain_view(seen: &i64) -> Micros {
        match Micros::new(*seen as u32) {
            Some(micros) => micros,
            None => unreachable!(),
        }
    }
}

impl<'a> FromView<'a> for KString {
    ghost copied = { λ octets. octets.now };

    fn from_view(alloc: Global, seen: &&'a [u8]) -> Result<KString, Memory> {
        Ok(KString::new(Vec::from_slice(alloc, seen)?))
    }
}

impl<'a> FromView<'a> for Octets {
    ghost copied = { λ octets. octets.now };

    fn from_view(alloc: Global, seen: &&'a [u8]) -> Result<Octets, Memory> {
        Ok(Octets::new(Vec::from_slice(alloc, seen)?))
    }
}

impl<'a> FromView<'a> for KerberosTime {
    ghost copied = { λ octets. octets.now };

    fn from_view(_alloc: Global, seen: &&'a [u8]) -> Result<KerberosTime, Memory> {
        Ok(KerberosTime::from_plain_view(seen))
    }
}

impl<'a> FromPlainView<'a> for KerberosTime {
    fn from_plain_view(seen: &&'a [u8]) -> KerberosTime {
        let Some((octets, _)) = seen.split_first_chunk::<15>() else {
            unreachable!()
        };
        match KerberosTime::new(*octets) {
            Some(time) => time,
            None => unreachable!(),
        }
    }
}

impl<'a> FromView<'a> for Flags {
    ghost copied = { flags_of_view };

    fn from_view(alloc: Global, seen: &FlagsView<'a>) -> Result<Flags, Memory> {
        match Flags::new(seen.unused, Vec::from_slice(alloc, seen.octets)?) {
            Some(flags) => Ok(flags),
            None => unreachable!(),
        }
    }
}
