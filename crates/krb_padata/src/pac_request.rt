//! PA-PAC-REQUEST (MS-KILE, 2.2.3).

ghost use Rattle.std.specs.Prelude.{◌≡◌, Bool, MatchOption};
ghost use Rattle.krb_padata.specs.PacRequest.{pac_request, pac_request_in};

/// Returns whether a PAC is asked for, if octets are a PA-PAC-REQUEST.
pub fn view_pac_request(octets: &[u8]) -> Option<bool>
    ensures value { result ≡ pac_request_in octets.now }
    ensures form { MatchOption result ((include : Bool) → octets.now ≡ pac_request include → ⊥) (λ include. octets.now ≡ pac_request include) }
{
    if octets == b"\x30\x05\xA0\x03\x01\x01\xFF".as_slice() {
        Some(true)
    } else if octets == b"\x30\x05\xA0\x03\x01\x01\x00".as_slice() {
        Some(false)
    } else {
        None
    }
}
