//! What is in the items of messages and of pre-authentication data in the clear, with the names of
//! fields (RFC 4120, appendix A, 5.2.7 and 5.9.1; RFC 6113, 5.4; MS-SFU, 2.2.1; MS-KILE, 2.2.3 and
//! 2.2.10). `asn1/generate` wrote this from `asn1/krb5.asn1` and `asn1/padata.asn1`.

ghost use Rattle.std.specs.Prelude.{◌≡◌, ◌≤◌, length, map};
ghost use Rattle.krb_judge.specs.FieldNames.{names_of_kind};
ghost use Rattle.krb_judge.specs.declared.locating.names.Names.TheVariants.{Ticket};
ghost use Rattle.krb_msg.specs.Grammar.{ticket as ticket_term};
ghost use Rattle.krb_msg.specs.Views.{kind_term};
ghost use Rattle.krb_items.specs.Shapes.{field_of, fields_of, held_type, identifier_type, in_tag, item_of, list_type, message_of, neg_name, neg_type, sequence_type, ticket, type_of};
ghost use Rattle.krb_items.specs.Terms.{IsOf, IsOfHeld};

use crate::tag::Tag;
use krb_msg::Kind;
use krb_registry::Registry;

/// A type in which there are no items, by what is shown of it.
#[derive(Clone, Copy)]
pub enum Leaf {
    /// A number.
    Number,
    /// A number of a registry.
    Numbered(Registry),
    /// The code of an error.
    ErrorCode,
    /// Flags, whose names a registry has.
    Flags(Registry),
    /// A string, or a salt.
    Text,
    /// A time.
    Time,
    /// Octets that are shown.
    Octets,
    /// Whether something holds.
    Truth,
    /// An identifier.
    Identifier,
    /// Octets that are counted.
    Hidden,
    /// Octets that are counted, and followed by what they hold.
    Opened,
    /// So many octets, which are followed by what they hold.
    Counted(u64),
    /// Octets of which the number before them says what they hold.
    Holder(Holder),
}

/// An OCTET STRING of which the number before it says what it holds.
#[derive(Clone, Copy)]
pub enum Holder {
    /// The padata-value of a request.
    RequestPadata,
    /// The padata-value of a reply or an error.
    Padata,
    /// The e-data of an error.
    ErrorData,
    /// The armor-value of a request.
    Armor,
}

/// What an OCTET STRING holds.
#[derive(Clone, Copy)]
pub enum Held {
    /// PA-TGS-REQ, an AP-REQ.
    TgsReq,
    /// PA-ENC-TIMESTAMP.
    EncTimestamp,
    /// PA-PW-SALT, which is no item.
    Salt,
    /// PA-ETYPE-INFO.
    EtypeInfo,
    /// PA-ETYPE-INFO2.
    EtypeInfo2,
    /// PA-PAC-REQUEST.
    PacRequest,
    /// PA-FOR-USER.
    ForUser,
    /// PA-FX-FAST of a request.
    FastRequest,
    /// PA-FX-FAST of a reply or an error.
    FastReply,
    /// PA-ENCRYPTED-CHALLENGE.
    EncryptedChallenge,
    /// PA-PAC-OPTIONS.
    PacOptions,
    /// METHOD-DATA of an error.
    MethodData,
    /// An armor that is an AP-REQ.
    ApReq,
}

/// A token of SPNEGO.
#[derive(Clone, Copy)]
pub enum NegToken {
    /// A first one (RFC 4178, 4.2.1).
    Init,
    /// One after that (RFC 4178, 4.2.2).
    Response,
}

/// A SEQUENCE.
#[derive(Clone, Copy)]
pub enum Sequence {
    PrincipalName,
    HostAddress,
    RequestPaData,
    PaData,
    EncryptedData,
    Checksum,
    Ticket,
    KdcReqBody,
    KdcReq,
    KdcRep,
    ApReq,
    ApRep,
    KrbSafeBody,
    KrbSafe,
    KrbPriv,
    KrbCred,
    KrbError,
    EtypeInfoEntry,
    EtypeInfo2Entry,
    KrbFastArmor,
    KrbFastArmoredReq,
    KrbFastArmoredRep,
    PaForUser,
    PaPacOptions,
    PacRequest,
    NegTokenInit,
    NegTokenResp,
    NegHints,
}

/// A SEQUENCE OF.
#[derive(Clone, Copy)]
pub enum List {
    Strings,
    EncryptionTypes,
    HostAddresses,
    Tickets,
    RequestPaDatas,
    PaDatas,
    EtypeInfo,
    EtypeInfo2,
    MechTypes,
}

/// What is in an item.
#[derive(Clone, Copy)]
pub enum Shape {
    Leaf(Leaf),
    Sequence(Sequence),
    List(List),
    /// An OCTET STRING with the token in one of SPNEGO.
    Token,
    /// An OCTET STRING or a NegHints.
    Hints,
}

/// The type of an item: its tags, the outermost first, and what is in it.
#[derive(Clone, Copy)]
pub struct ItemType {
    pub tags: &'static [Tag],
    pub shape: Shape,
}

/// A field of a SEQUENCE.
#[derive(Clone, Copy)]
pub struct Field {
    /// Its name.
    pub name: &'static str,
    /// Whether it must be there.
    pub required: bool,
    /// Its type, with the explicit tag of the field.
    pub of: ItemType,
}

macro_rules! field {
    ($required:literal $index:literal $name:literal [$($tag:expr),*] $shape:expr) => {
        Field {
            name: $name,
            required: $required,
            of: ItemType { tags: &[Tag::Context($index) $(, $tag)*], shape: $shape },
        }
    };
    ($required:literal $index:literal $name:literal number $leaf:expr) => {
        field!($required $index $name [Tag::Integer] Shape::Leaf($leaf))
    };
    ($required:literal $index:literal $name:literal octets $leaf:expr) => {
        field!($required $index $name [Tag::OctetString] Shape::Leaf($leaf))
    };
    ($required:literal $index:literal $name:literal holder $holder:expr) => {
        field!($required $index $name [Tag::OctetString] Shape::Leaf(Leaf::Holder($holder)))
    };
    ($required:literal $index:literal $name:literal identifier) => {
        field!($required $index $name [Tag::ObjectIdentifier] Shape::Leaf(Leaf::Identifier))
    };
    ($required:literal $index:literal $name:literal token) => {
        field!($required $index $name [Tag::OctetString] Shape::Token)
    };
    ($required:literal $index:literal $name:literal truth) => {
        field!($required $index $name [Tag::Boolean] Shape::Leaf(Leaf::Truth))
    };
    ($required:literal $index:literal $name:literal flags $registry:expr) => {
        field!($required $index $name [Tag::BitString] Shape::Leaf(Leaf::Flags($registry)))
    };
    ($required:literal $index:literal $name:literal text) => {
        field!($required $index $name [Tag::GeneralString] Shape::Leaf(Leaf::Text))
    };
    ($required:literal $index:literal $name:literal time) => {
        field!($required $index $name [Tag::GeneralizedTime] Shape::Leaf(Leaf::Time))
    };
    ($required:literal $index:literal $name:literal sequence $sequence:expr) => {
        field!($required $index $name [Tag::Sequence] Shape::Sequence($sequence))
    };
    ($required:literal $index:literal $name:literal list $list:expr) => {
        field!($required $index $name [Tag::SequenceOf] Shape::List($list))
    };
    ($required:literal $index:literal $name:literal ticket) => {
        field!($required $index $name [Tag::Application(1), Tag::Sequence] Shape::Sequence(Sequence::Ticket))
    };
}

macro_rules! fields {
    ($(($($field:tt)*)),* $(,)?) => { [$(field!($($field)*)),*] };
}

static PRINCIPAL_NAME: [Field; 2] = fields![
    (true 0 "name-type" number Leaf::Numbered(Registry::NameTypes)),
    (true 1 "name-string" list List::Strings),
];

static HOST_ADDRESS: [Field; 2] = fields![
    (true 0 "addr-type" number Leaf::Numbered(Registry::AddressTypes)),
    (true 1 "address" octets Leaf::Octets),
];

static REQUEST_PA_DATA: [Field; 2] = fields![
    (true 1 "padata-type" number Leaf::Numbered(Registry::PreAuthenticationData)),
    (true 2 "padata-value" holder Holder::RequestPadata),
];

static PA_DATA: [Field; 2] = fields![
    (true 1 "padata-type" number Leaf::Numbered(Registry::PreAuthenticationData)),
    (true 2 "padata-value" holder Holder::Padata),
];

static ENCRYPTED_DATA: [Field; 3] = fields![
    (true 0 "etype" number Leaf::Numbered(Registry::EncryptionTypes)),
    (false 1 "kvno" number Leaf::Number),
    (true 2 "cipher" octets Leaf::Hidden),
];

static CHECKSUM: [Field; 2] = fields![
    (true 0 "cksumtype" number Leaf::Numbered(Registry::ChecksumTypes)),
    (true 1 "checksum" octets Leaf::Hidden),
];

static TICKET: [Field; 4] = fields![
    (true 0 "tkt-vno" number Leaf::Number),
    (true 1 "realm" text),
    (true 2 "sname" sequence Sequence::PrincipalName),
    (true 3 "enc-part" sequence Sequence::EncryptedData),
];

static KDC_REQ_BODY: [Field; 12] = fields![
    (true 0 "kdc-options" flags Registry::KdcOptions),
    (false 1 "cname" sequence Sequence::PrincipalName),
    (true 2 "realm" text),
    (false 3 "sname" sequence Sequence::PrincipalName),
    (false 4 "from" time),
    (true 5 "till" time),
    (false 6 "rtime" time),
    (true 7 "nonce" number Leaf::Number),
    (true 8 "etype" list List::EncryptionTypes),
    (false 9 "addresses" list List::HostAddresses),
    (false 10 "enc-authorization-data" sequence Sequence::EncryptedData),
    (false 11 "additional-tickets" list List::Tickets),
];

static KDC_REQ: [Field; 4] = fields![
    (true 1 "pvno" number Leaf::Number),
    (true 2 "msg-type" number Leaf::Number),
    (false 3 "padata" list List::RequestPaDatas),
    (true 4 "req-body" sequence Sequence::KdcReqBody),
];

static KDC_REP: [Field; 7] = fields![
    (true 0 "pvno" number Leaf::Number),
    (true 1 "msg-type" number Leaf::Number),
    (false 2 "padata" list List::PaDatas),
    (true 3 "crealm" text),
    (true 4 "cname" sequence Sequence::PrincipalName),
    (true 5 "ticket" ticket),
    (true 6 "enc-part" sequence Sequence::EncryptedData),
];

static AP_REQ: [Field; 5] = fields![
    (true 0 "pvno" number Leaf::Number),
    (true 1 "msg-type" number Leaf::Number),
    (true 2 "ap-options" flags Registry::ApOptions),
    (true 3 "ticket" ticket),
    (true 4 "authenticator" sequence Sequence::EncryptedData),
];

static AP_REP: [Field; 3] = fields![
    (true 0 "pvno" number Leaf::Number),
    (true 1 "msg-type" number Leaf::Number),
    (true 2 "enc-part" sequence Sequence::EncryptedData),
];

static KRB_SAFE_BODY: [Field; 6] = fields![
    (true 0 "user-data" octets Leaf::Hidden),
    (false 1 "timestamp" time),
    (false 2 "usec" number Leaf::Number),
    (false 3 "seq-number" number Leaf::Number),
    (true 4 "s-address" sequence Sequence::HostAddress),
    (false 5 "r-address" sequence Sequence::HostAddress),
];

static KRB_SAFE: [Field; 4] = fields![
    (true 0 "pvno" number Leaf::Number),
    (true 1 "msg-type" number Leaf::Number),
    (true 2 "safe-body" sequence Sequence::KrbSafeBody),
    (true 3 "cksum" sequence Sequence::Checksum),
];

static KRB_PRIV: [Field; 3] = fields![
    (true 0 "pvno" number Leaf::Number),
    (true 1 "msg-type" number Leaf::Number),
    (true 3 "enc-part" sequence Sequence::EncryptedData),
];

static KRB_CRED: [Field; 4] = fields![
    (true 0 "pvno" number Leaf::Number),
    (true 1 "msg-type" number Leaf::Number),
    (true 2 "tickets" list List::Tickets),
    (true 3 "enc-part" sequence Sequence::EncryptedData),
];

static KRB_ERROR: [Field; 13] = fields![
    (true 0 "pvno" number Leaf::Number),
    (true 1 "msg-type" number Leaf::Number),
    (false 2 "ctime" time),
    (false 3 "cusec" number Leaf::Number),
    (true 4 "stime" time),
    (true 5 "susec" number Leaf::Number),
    (true 6 "error-code" number Leaf::ErrorCode),
    (false 7 "crealm" text),
    (false 8 "cname" sequence Sequence::PrincipalName),
    (true 9 "realm" text),
    (true 10 "sname" sequence Sequence::PrincipalName),
    (false 11 "e-text" text),
    (false 12 "e-data" holder Holder::ErrorData),
];

static ETYPE_INFO_ENTRY: [Field; 2] = fields![
    (true 0 "etype" number Leaf::Numbered(Registry::EncryptionTypes)),
    (false 1 "salt" octets Leaf::Text),
];

static ETYPE_INFO2_ENTRY: [Field; 3] = fields![
    (true 0 "etype" number Leaf::Numbered(Registry::EncryptionTypes)),
    (false 1 "salt" text),
    (false 2 "s2kparams" octets Leaf::Octets),
];

static KRB_FAST_ARMOR: [Field; 2] = fields![
    (true 0 "armor-type" number Leaf::Number),
    (true 1 "armor-value" holder Holder::Armor),
];

static KRB_FAST_ARMORED_REQ: [Field; 3] = fields![
    (false 0 "armor" sequence Sequence::KrbFastArmor),
    (true 1 "req-checksum" sequence Sequence::Checksum),
    (true 2 "enc-fast-req" sequence Sequence::EncryptedData),
];

static KRB_FAST_ARMORED_REP: [Field; 1] = fields![
    (true 0 "enc-fast-rep" sequence Sequence::EncryptedData),
];

static PA_FOR_USER: [Field; 4] = fields![
    (true 0 "userName" sequence Sequence::PrincipalName),
    (true 1 "userRealm" text),
    (true 2 "cksum" sequence Sequence::Checksum),
    (true 3 "auth-package" text),
];

static PA_PAC_OPTIONS: [Field; 1] = fields![
    (true 0 "flags" flags Registry::PacOptions),
];

static PAC_REQUEST: [Field; 1] = fields![
    (true 0 "include-pac" truth),
];

static NEG_TOKEN_INIT: [Field; 5] = fields![
    (false 0 "mechTypes" list List::MechTypes),
    (false 1 "reqFlags" flags Registry::ContextFlags),
    (false 2 "mechToken" token),
    (false 3 "mechListMIC" [] Shape::Hints),
    (false 4 "mechListMIC" octets Leaf::Hidden),
];

static NEG_TOKEN_RESP: [Field; 4] = fields![
    (false 0 "negState" [Tag::Enumerated] Shape::Leaf(Leaf::Number)),
    (false 1 "supportedMech" identifier),
    (false 2 "responseToken" token),
    (false 3 "mechListMIC" octets Leaf::Hidden),
];

static NEG_HINTS: [Field; 2] = fields![
    (false 0 "hintName" text),
    (false 1 "hintAddress" octets Leaf::Hidden),
];

impl Sequence {
    /// Returns its fields, in order.
    pub(crate) fn fields(self) -> &'static [Field]
        ensures fields { map field_of result.now ≡ fields_of self }
        ensures few { length result.now ≤ 13 }
    {
        match self {
            Sequence::PrincipalName => &PRINCIPAL_NAME,
            Sequence::HostAddress => &HOST_ADDRESS,
            Sequence::RequestPaData => &REQUEST_PA_DATA,
            Sequence::PaData => &PA_DATA,
            Sequence::EncryptedData => &ENCRYPTED_DATA,
            Sequence::Checksum => &CHECKSUM,
            Sequence::Ticket => &TICKET,
            Sequence::KdcReqBody => &KDC_REQ_BODY,
            Sequence::KdcReq => &KDC_REQ,
            Sequence::KdcRep => &KDC_REP,
            Sequence::ApReq => &AP_REQ,
            Sequence::ApRep => &AP_REP,
            Sequence::KrbSafeBody => &KRB_SAFE_BODY,
            Sequence::KrbSafe => &KRB_SAFE,
            Sequence::KrbPriv => &KRB_PRIV,
            Sequence::KrbCred => &KRB_CRED,
            Sequence::KrbError => &KRB_ERROR,
            Sequence::EtypeInfoEntry => &ETYPE_INFO_ENTRY,
            Sequence::EtypeInfo2Entry => &ETYPE_INFO2_ENTRY,
            Sequence::KrbFastArmor => &KRB_FAST_ARMOR,
            Sequence::KrbFastArmoredReq => &KRB_FAST_ARMORED_REQ,
            Sequence::KrbFastArmoredRep => &KRB_FAST_ARMORED_REP,
            Sequence::PaForUser => &PA_FOR_USER,
            Sequence::PaPacOptions => &PA_PAC_OPTIONS,
            Sequence::PacRequest => &PAC_REQUEST,
            Sequence::NegTokenInit => &NEG_TOKEN_INIT,
            Sequence::NegTokenResp => &NEG_TOKEN_RESP,
            Sequence::NegHints => &NEG_HINTS,
        }
    }
}

impl List {
    /// Returns the type of its items.
    pub(crate) fn item(self) -> ItemType
        ensures { type_of result ≡ item_of self }
    {
        match self {
            List::Strings => ItemType {
                tags: &[Tag::GeneralString],
                shape: Shape::Leaf(Leaf::Text),
            },
            List::EncryptionTypes => ItemType {
                tags: &[Tag::Integer],
                shape: Shape::Leaf(Leaf::Numbered(Registry::EncryptionTypes)),
            },
            List::HostAddresses => of_sequence(Sequence::HostAddress),
            List::Tickets => ticket_type(),
            List::RequestPaDatas => of_sequence(Sequence::RequestPaData),
            List::PaDatas => of_sequence(Sequence::PaData),
            List::EtypeInfo => of_sequence(Sequence::EtypeInfoEntry),
            List::EtypeInfo2 => of_sequence(Sequence::EtypeInfo2Entry),
            List::MechTypes => identifier_type(),
        }
    }
}

/// Returns the type of a SEQUENCE by itself.
fn of_sequence(of: Sequence) -> ItemType
    ensures { type_of result ≡ sequence_type of }
{
    ItemType {
        tags: &[Tag::Sequence],
        shape: Shape::Sequence(of),
    }
}

/// Returns the type of a Ticket (RFC 4120, 5.3).
pub(crate) fn ticket_type() -> ItemType
    ensures ticket { type_of result ≡ ticket }
    ensures grammar { IsOf (type_of result) Ticket ticket_term }
{
    ItemType {
        tags: &[Tag::Application(1), Tag::Sequence],
        shape: Shape::Sequence(Sequence::Ticket),
    }
}

macro_rules! message {
    ($number:literal $sequence:ident) => {
        ItemType {
            tags: &[Tag::Application($number), Tag::Sequence],
            shape: Shape::Sequence(Sequence::$sequence),
        }
    };
}

/// Returns the type of the messages of a kind.
pub(crate) fn message_type(kind: Kind) -> ItemType
    ensures message { type_of result ≡ message_of kind }
    ensures grammar { IsOf (type_of result) (names_of_kind kind) (kind_term kind) }
{
    match kind {
        Kind::AsReq => message!(10 KdcReq),
        Kind::AsRep => message!(11 KdcRep),
        Kind::TgsReq => message!(12 KdcReq),
        Kind::TgsRep => message!(13 KdcRep),
        Kind::ApReq => message!(14 ApReq),
        Kind::ApRep => message!(15 ApRep),
        Kind::KrbSafe => message!(20 KrbSafe),
        Kind::KrbPriv => message!(21 KrbPriv),
        Kind::KrbCred => message!(22 KrbCred),
        Kind::KrbError => message!(30 KrbError),
    }
}

/// Returns the type of a SEQUENCE OF by itself.
fn of_list(of: List) -> ItemType
    ensures { type_of result ≡ list_type of }
{
    ItemType {
        tags: &[Tag::SequenceOf],
        shape: Shape::List(of),
    }
}

/// Returns the type of a SEQUENCE in the explicit tag `[0]`.
fn in_first_tag(of: Sequence) -> ItemType
    ensures { type_of result ≡ in_tag 0 (sequence_type of) }
{
    ItemType {
        tags: &[Tag::Context(0), Tag::Sequence],
        shape: Shape::Sequence(of),
    }
}

impl Held {
    /// Returns the type of its items.
    pub(crate) fn item(self) -> ItemType
        ensures held { type_of result ≡ held_type self }
        ensures grammar { IsOfHeld self (type_of result) }
    {
        match self {
            Held::TgsReq | Held::ApReq => message_type(Kind::ApReq),
            Held::EncTimestamp => of_sequence(Sequence::EncryptedData),
            Held::Salt => ItemType {
                tags: &[Tag::OctetString],
                shape: Shape::Leaf(Leaf::Text),
            },
            Held::EtypeInfo => of_list(List::EtypeInfo),
            Held::EtypeInfo2 => of_list(List::EtypeInfo2),
            Held::PacRequest => of_sequence(Sequence::PacRequest),
            Held::ForUser => of_sequence(Sequence::PaForUser),
            Held::FastRequest => in_first_tag(Sequence::KrbFastArmoredReq),
            Held::FastReply => in_first_tag(Sequence::KrbFastArmoredRep),
            Held::EncryptedChallenge => of_sequence(Sequence::EncryptedData),
            Held::PacOptions => of_sequence(Sequence::PaPacOptions),
            Held::MethodData => of_list(List::PaDatas),
        }
    }
}

/// Returns the type of an OBJECT IDENTIFIER by itself.
pub(crate) fn identifier_type() -> ItemType
    ensures { type_of result ≡ identifier_type }
{
    ItemType {
        tags: &[Tag::ObjectIdentifier],
        shape: Shape::Leaf(Leaf::Identifier),
    }
}

impl NegToken {
    /// Returns its type.
    pub(crate) fn item(self) -> ItemType
        ensures { type_of result ≡ neg_type self }
    {
        match self {
            NegToken::Init => in_first_tag(Sequence::NegTokenInit),
            NegToken::Response => ItemType {
                tags: &[Tag::Context(1), Tag::Sequence],
                shape: Shape::Sequence(Sequence::NegTokenResp),
            },
        }
    }

    /// Returns the name of the field with the token.
    pub(crate) fn field(self) -> &'static str
        ensures { result.now ≡ neg_name self }
    {
        match self {
            NegToken::Init => "mechToken",
            NegToken::Response => "responseToken",
        }
    }
}
