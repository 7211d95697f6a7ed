//! The version of the library.

ghost use Rattle.std.specs.Prelude.{◌≡◌};
ghost use Rattle.krb_c.specs.Numbers.{version};

/// Returns the version of the library, which is 1.0.0: 65536 times its first number, 256 times its
/// second one, and its third one.
#[unsafe(no_mangle)]
pub extern "C" fn krbls_version() -> u32
    ensures { result ≡ version }
{
    65536
}
