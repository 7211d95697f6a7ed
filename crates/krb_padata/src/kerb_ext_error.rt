//! KERB-EXT-ERROR (MS-KILE, 2.2.1).

ghost use Rattle.std.specs.Prelude.{◌≡◌, ◌+◌, ◌≤◌, length};
ghost use Rattle.krb_padata.specs.ExtendedError.{kerb_ext_error_in, number_after};

/// An extended error, by which a KDC of Windows says more of what is wrong (MS-KILE, 2.2.1).
#[derive(Clone, Copy)]
pub struct KerbExtError {
    /// The status of Windows, an NTSTATUS (MS-ERREF, 2.3.1).
    pub status: u32,
    /// What is reserved, which is 0.
    pub reserved: u32,
    /// The flags.
    pub flags: u32,
}

/// Returns the number of 32 bits after `at` octets, of which the lowest octet is first.
fn number_after(at: usize, octets: &[u8]) -> u32
    requires { at + 4 ≤ length octets.now }
    ensures { result ≡ number_after at octets.now }
{
    let mut number = [0; 4];
    number.copy_from_slice(&octets[at..at + 4]);
    u32::from_le_bytes(number)
}

/// Returns the extended error that octets are, if they are twelve.
pub fn view_kerb_ext_error(octets: &[u8]) -> Option<KerbExtError>
    ensures { result ≡ kerb_ext_error_in octets.now }
{
    if octets.len() != 12 {
        return None;
    }
    Some(KerbExtError {
        status: number_after(0, octets),
        reserved: number_after(4, octets),
        flags: number_after(8, octets),
    })
}
