//! The names of fields (RFC 4120, appendix A). `asn1/generate` wrote this from `asn1/krb5.asn1`.

ghost use Rattle.std.specs.Prelude.{◌≡◌, map};
ghost use Rattle.krb_judge.specs.FieldNames.{fields_of, named, names_of_kind};

use crate::locating::field::Field;
use krb_msg::Kind;

/// The type of an item, by which the fields in it have their names. A tag has that of what is in
/// it, and a SEQUENCE OF that of its items.
#[derive(Clone, Copy)]
pub enum Names {
    /// A type that has no fields.
    Basic,
    PrincipalName,
    HostAddress,
    PaData,
    EncryptedData,
    Checksum,
    Ticket,
    KdcReqBody,
    KdcReq,
    KdcRep,
    ApReq,
    ApRep,
    KrbSafeBody,
    KrbSafe,
    KrbPriv,
    KrbCred,
    KrbError,
}

macro_rules! fields {
    ($($name:literal $inside:ident),* $(,)?) => {
        [$(Field { name: $name, inside: Names::$inside }),*]
    };
}

static PRINCIPAL_NAME: [Field; 2] = fields!["name-type" Basic, "name-string" Basic];

static HOST_ADDRESS: [Field; 2] = fields!["addr-type" Basic, "address" Basic];

static PA_DATA: [Field; 2] = fields!["padata-type" Basic, "padata-value" Basic];

static ENCRYPTED_DATA: [Field; 3] = fields!["etype" Basic, "kvno" Basic, "cipher" Basic];

static CHECKSUM: [Field; 2] = fields!["cksumtype" Basic, "checksum" Basic];

static TICKET: [Field; 4] =
    fields!["tkt-vno" Basic, "realm" Basic, "sname" PrincipalName, "enc-part" EncryptedData];

static KDC_REQ_BODY: [Field; 12] = fields![
    "kdc-options" Basic,
    "cname" PrincipalName,
    "realm" Basic,
    "sname" PrincipalName,
    "from" Basic,
    "till" Basic,
    "rtime" Basic,
    "nonce" Basic,
    "etype" Basic,
    "addresses" HostAddress,
    "enc-authorization-data" EncryptedData,
    "additional-tickets" Ticket,
];

static KDC_REQ: [Field; 4] =
    fields!["pvno" Basic, "msg-type" Basic, "padata" PaData, "req-body" KdcReqBody];

static KDC_REP: [Field; 7] = fields![
    "pvno" Basic,
    "msg-type" Basic,
    "padata" PaData,
    "crealm" Basic,
    "cname" PrincipalName,
    "ticket" Ticket,
    "enc-part" EncryptedData,
];

static AP_REQ: [Field; 5] = fields![
    "pvno" Basic,
    "msg-type" Basic,
    "ap-options" Basic,
    "ticket" Ticket,
    "authenticator" EncryptedData,
];

static AP_REP: [Field; 3] = fields!["pvno" Basic, "msg-type" Basic, "enc-part" EncryptedData];

static KRB_SAFE_BODY: [Field; 6] = fields![
    "user-data" Basic,
    "timestamp" Basic,
    "usec" Basic,
    "seq-number" Basic,
    "s-address" HostAddress,
    "r-address" HostAddress,
];

static KRB_SAFE: [Field; 4] =
    fields!["pvno" Basic, "msg-type" Basic, "safe-body" KrbSafeBody, "cksum" Checksum];

static KRB_PRIV: [Field; 3] = fields!["pvno" Basic, "msg-type" Basic, "enc-part" EncryptedData];

static KRB_CRED: [Field; 4] =
    fields!["pvno" Basic, "msg-type" Basic, "tickets" Ticket, "enc-part" EncryptedData];

static KRB_ERROR: [Field; 13] = fields![
    "pvno" Basic,
    "msg-type" Basic,
    "ctime" Basic,
    "cusec" Basic,
    "stime" Basic,
    "susec" Basic,
    "error-code" Basic,
    "crealm" Basic,
    "cname" PrincipalName,
    "realm" Basic,
    "sname" PrincipalName,
    "e-text" Basic,
    "e-data" Basic,
];

impl Names {
    /// Returns those of a message of a kind.
    pub fn of_kind(kind: Kind) -> Names
        ensures { result ≡ names_of_kind kind }
    {
        match kind {
            Kind::AsReq | Kind::TgsReq => Names::KdcReq,
            Kind::AsRep | Kind::TgsRep => Names::KdcRep,
            Kind::ApReq => Names::ApReq,
            Kind::ApRep => Names::ApRep,
            Kind::KrbSafe => Names::KrbSafe,
            Kind::KrbPriv => Names::KrbPriv,
            Kind::KrbCred => Names::KrbCred,
            Kind::KrbError => Names::KrbError,
        }
    }

    /// Returns the fields of the type, in order.
    pub fn fields(self) -> &'static [Field]
        ensures { map named result.now ≡ fields_of self }
    {
        match self {
            Names::Basic => &[],
            Names::PrincipalName => &PRINCIPAL_NAME,
            Names::HostAddress => &HOST_ADDRESS,
            Names::PaData => &PA_DATA,
            Names::EncryptedData => &ENCRYPTED_DATA,
            Names::Checksum => &CHECKSUM,
            Names::Ticket => &TICKET,
            Names::KdcReqBody => &KDC_REQ_BODY,
            Names::KdcReq => &KDC_REQ,
            Names::KdcRep => &KDC_REP,
            Names::ApReq => &AP_REQ,
            Names::ApRep => &AP_REP,
            Names::KrbSafeBody => &KRB_SAFE_BODY,
            Names::KrbSafe => &KRB_SAFE,
            Names::KrbPriv => &KRB_PRIV,
            Names::KrbCred => &KRB_CRED,
            Names::KrbError => &KRB_ERROR,
        }
    }
}
