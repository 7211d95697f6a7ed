//! Which kinds of records are listed, and which fields these have.
//! `tools/fields` wrote this from `docs/LISTING.md`.

ghost use Rattle.std.specs.Prelude.{◌≡◌, map};
ghost use Rattle.krb_fields.specs.Table.{endings, inside, origin, records};
ghost use Rattle.krb_fields.specs.Fields.{field_of, shape_of};

use crate::shape::{Field, Listing, Shape, Value};

macro_rules! fields {
    ($($name:literal $value:ident),* $(,)?) => {
        [$(Field { name: $name, value: Value::$value }),*]
    };
}

macro_rules! shape {
    ($kind:literal $fields:expr, $told:expr) => {
        Shape { kind: $kind, fields: $fields, told: $told }
    };
}

const OF_FILE: [Field; 1] = fields!["file" One];

const OF_LINE_VIA_FILE: [Field; 3] = fields!["line" One, "via" One, "file" One];

const OF_PACKET_T_FLOW_T_US_FILE: [Field; 5] =
    fields!["packet" One, "t" One, "flow" Flow, "t_us" One, "file" One];

const TOLD_OF_AS_REQ: [Field; 1] = fields!["again" One];

const TOLD_OF_AS_REP: [Field; 3] = fields!["of" One, "after" One, "waited" One];

const TOLD_OF_KPASSWD: [Field; 4] = fields!["again" One, "of" One, "after" One, "waited" One];

const AS_REQ: [Field; 15] =
    fields!["realm" One, "client" Principal, "server" Principal, "options" Flags, "from" One, "till" One, "rtime" One, "nonce" One, "etypes" Numbers, "padata" Numbers, "addresses" One, "authdata" Encrypted, "tickets" One, "notes" Numbers, "inside" Inside];

const AS_REP: [Field; 7] =
    fields!["client" Principal, "server" Principal, "padata" Numbers, "ticket" Encrypted, "enc" Encrypted, "notes" Numbers, "inside" Inside];

const AP_REQ: [Field; 5] =
    fields!["server" Principal, "options" Flags, "ticket" Encrypted, "auth" Encrypted, "notes" Numbers];

const AP_REP: [Field; 2] = fields!["enc" Encrypted, "notes" Numbers];

const KRB_SAFE: [Field; 8] =
    fields!["size" One, "time" One, "usec" One, "seq" One, "sender" Address, "receiver" Address, "cksum" Checksum, "notes" Numbers];

const KRB_CRED: [Field; 4] =
    fields!["tickets" One, "enc" Encrypted, "notes" Numbers, "inside" Inside];

const KRB_ERROR: [Field; 12] =
    fields!["code" Named, "client" Principal, "server" Principal, "ctime" One, "cusec" One, "stime" One, "susec" One, "text" One, "data" One, "methods" Numbers, "notes" Numbers, "inside" Inside];

const END: [Field; 1] = fields!["messages" One];

const REFUSED: [Field; 6] =
    fields!["messages" One, "place" One, "why" Named, "in" One, "at" One, "length" One];

const END_OF_STREAM: [Field; 2] = fields!["messages" One, "refused" One];

const FILE: [Field; 1] = fields!["name" One];

const TICKET: [Field; 3] = fields!["server" Principal, "ticket" Encrypted, "notes" Numbers];

const REFUSED_OF_MESSAGE: [Field; 6] =
    fields!["place" One, "why" Named, "in" One, "at" One, "length" One, "form" One];

const REFUSED_OF_MESSAGE_2: [Field; 7] =
    fields!["input" One, "place" One, "why" Named, "in" One, "at" One, "length" One, "form" One];

const ENTRY: [Field; 7] =
    fields!["principal" Principal, "type" Named, "time" One, "kvno" One, "enctype" Named, "key" One, "rest" One];

const HOLE: [Field; 2] = fields!["size" One, "clean" One];

const END_OF_KEYTAB: [Field; 2] = fields!["records" One, "zero" One];

const REFUSED_OF_KEYTAB: [Field; 5] =
    fields!["place" One, "why" Named, "in" One, "at" One, "length" One];

const CACHE: [Field; 4] =
    fields!["principal" Principal, "type" Named, "offset" Offset, "fields" One];

const CRED: [Field; 16] =
    fields!["client" Principal, "server" Principal, "enctype" Named, "key" One, "auth" One, "start" One, "end" One, "renew" One, "skey" One, "flags" Flags, "state" One, "addresses" One, "authdata" One, "ticket" Ticket, "tserver" Principal, "second" One];

const CONFIG: [Field; 4] = fields!["client" Principal, "server" Principal, "size" One, "value" One];

const END_OF_CCACHE: [Field; 1] = fields!["credentials" One];

const KPASSWD: [Field; 3] = fields!["version" One, "ap" One, "rest" One];

const LOST: [Field; 3] = fields!["place" One, "octets" One, "in" One];

const UNREAD: [Field; 3] = fields!["place" One, "octets" One, "why" Named];

const UNANSWERED: [Field; 4] = fields!["request" One, "of" One, "after" One, "waited" One];

const UNREACHABLE: [Field; 7] =
    fields!["how" One, "by" One, "type" Named, "code" Named, "of" One, "after" One, "waited" One];

const END_OF_CAPTURE: [Field; 9] =
    fields!["packets" One, "messages" One, "refused" One, "lost" One, "unread" One, "answered" One, "unanswered" One, "again" One, "unreachable" One];

const REFUSED_OF_CAPTURE: [Field; 14] =
    fields!["packets" One, "messages" One, "refused" One, "lost" One, "unread" One, "place" One, "why" Named, "in" One, "at" One, "length" One, "answered" One, "unanswered" One, "again" One, "unreachable" One];

const PA_TGS_REQ: [Field; 4] =
    fields!["server" Principal, "options" Flags, "ticket" Encrypted, "auth" Encrypted];

const PA_ENC_TIMESTAMP: [Field; 1] = fields!["enc" Encrypted];

const PA_PW_SALT: [Field; 1] = fields!["salt" One];

const PA_ETYPE_INFO: [Field; 2] = fields!["etype" Named, "salt" One];

const PA_ETYPE_INFO2: [Field; 3] = fields!["etype" Named, "salt" One, "params" One];

const PA_PAC_REQUEST: [Field; 1] = fields!["pac" One];

const PA_FOR_USER: [Field; 3] = fields!["user" Principal, "cksum" Checksum, "package" One];

const PA_FX_FAST: [Field; 4] =
    fields!["armor" One, "server" Principal, "ticket" Encrypted, "enc" Encrypted];

const PA_PAC_OPTIONS: [Field; 1] = fields!["options" Flags];

const TICKET_OF_INSIDE: [Field; 2] = fields!["server" Principal, "ticket" Encrypted];

const METHOD_DATA: [Field; 1] = fields!["methods" Numbers];

const TYPED_DATA: [Field; 1] = fields!["types" Numbers];

const KERB_ERROR_DATA: [Field; 1] = fields!["type" Named];

const KERB_EXT_ERROR: [Field; 3] = fields!["status" Named, "reserved" One, "flags" One];

static STREAM_SHAPES: [Shape; 14] = [
    shape!["AS-REQ" & AS_REQ, &[]],
    shape!["AS-REP" & AS_REP, &[]],
    shape!["TGS-REQ" & AS_REQ, &[]],
    shape!["TGS-REP" & AS_REP, &[]],
    shape!["AP-REQ" & AP_REQ, &[]],
    shape!["AP-REP" & AP_REP, &[]],
    shape!["KRB-SAFE" & KRB_SAFE, &[]],
    shape!["KRB-PRIV" & AP_REP, &[]],
    shape!["KRB-CRED" & KRB_CRED, &[]],
    shape!["KRB-ERROR" & KRB_ERROR, &[]],
    shape!["end" & END, &[]],
    shape!["refused" & REFUSED, &[]],
    shape!["end" & END_OF_STREAM, &[]],
    shape!["file" & FILE, &[]],
];

static MESSAGE_SHAPES: [Shape; 15] = [
    shape!["AS-REQ" & AS_REQ, &[]],
    shape!["AS-REP" & AS_REP, &[]],
    shape!["TGS-REQ" & AS_REQ, &[]],
    shape!["TGS-REP" & AS_REP, &[]],
    shape!["AP-REQ" & AP_REQ, &[]],
    shape!["AP-REP" & AP_REP, &[]],
    shape!["KRB-SAFE" & KRB_SAFE, &[]],
    shape!["KRB-PRIV" & AP_REP, &[]],
    shape!["KRB-CRED" & KRB_CRED, &[]],
    shape!["KRB-ERROR" & KRB_ERROR, &[]],
    shape!["Ticket" & TICKET, &[]],
    shape!["refused" & REFUSED_OF_MESSAGE, &[]],
    shape!["refused" & REFUSED_OF_MESSAGE_2, &[]],
    shape!["end" & END_OF_STREAM, &[]],
    shape!["file" & FILE, &[]],
];

static KEYTAB_SHAPES: [Shape; 5] = [
    shape!["entry" & ENTRY, &[]],
    shape!["hole" & HOLE, &[]],
    shape!["end" & END_OF_KEYTAB, &[]],
    shape!["refused" & REFUSED_OF_KEYTAB, &[]],
    shape!["file" & FILE, &[]],
];

static CCACHE_SHAPES: [Shape; 6] = [
    shape!["cache" & CACHE, &[]],
    shape!["cred" & CRED, &[]],
    shape!["config" & CONFIG, &[]],
    shape!["end" & END_OF_CCACHE, &[]],
    shape!["refused" & REFUSED_OF_KEYTAB, &[]],
    shape!["file" & FILE, &[]],
];

static CAPTURE_SHAPES: [Shape; 20] = [
    shape!["AS-REQ" & AS_REQ, &TOLD_OF_AS_REQ],
    shape!["AS-REP" & AS_REP, &TOLD_OF_AS_REP],
    shape!["TGS-REQ" & AS_REQ, &TOLD_OF_AS_REQ],
    shape!["TGS-REP" & AS_REP, &TOLD_OF_AS_REP],
    shape!["AP-REQ" & AP_REQ, &[]],
    shape!["AP-REP" & AP_REP, &[]],
    shape!["KRB-SAFE" & KRB_SAFE, &[]],
    shape!["KRB-PRIV" & AP_REP, &[]],
    shape!["KRB-CRED" & KRB_CRED, &[]],
    shape!["KRB-ERROR" & KRB_ERROR, &TOLD_OF_AS_REP],
    shape!["refused" & REFUSED_OF_KEYTAB, &TOLD_OF_AS_REP],
    shape!["KPASSWD" & KPASSWD, &TOLD_OF_KPASSWD],
    shape!["joined" & [], &[]],
    shape!["lost" & LOST, &TOLD_OF_AS_REP],
    shape!["unread" & UNREAD, &[]],
    shape!["unanswered" & UNANSWERED, &[]],
    shape!["unreachable" & UNREACHABLE, &[]],
    shape!["end" & END_OF_CAPTURE, &[]],
    shape!["refused" & REFUSED_OF_CAPTURE, &[]],
    shape!["file" & FILE, &[]],
];

static INSIDE_SHAPES: [Shape; 15] = [
    shape!["PA-TGS-REQ" & PA_TGS_REQ, &[]],
    shape!["PA-ENC-TIMESTAMP" & PA_ENC_TIMESTAMP, &[]],
    shape!["PA-ENCRYPTED-CHALLENGE" & PA_ENC_TIMESTAMP, &[]],
    shape!["PA-PW-SALT" & PA_PW_SALT, &[]],
    shape!["PA-ETYPE-INFO" & PA_ETYPE_INFO, &[]],
    shape!["PA-ETYPE-INFO2" & PA_ETYPE_INFO2, &[]],
    shape!["PA-PAC-REQUEST" & PA_PAC_REQUEST, &[]],
    shape!["PA-FOR-USER" & PA_FOR_USER, &[]],
    shape!["PA-FX-FAST" & PA_FX_FAST, &[]],
    shape!["PA-PAC-OPTIONS" & PA_PAC_OPTIONS, &[]],
    shape!["Ticket" & TICKET_OF_INSIDE, &[]],
    shape!["METHOD-DATA" & METHOD_DATA, &[]],
    shape!["TYPED-DATA" & TYPED_DATA, &[]],
    shape!["KERB-ERROR-DATA" & KERB_ERROR_DATA, &[]],
    shape!["KERB-EXT-ERROR" & KERB_EXT_ERROR, &[]],
];

impl Value {
    /// Returns what follows the name of a field in the names of the members of such a value.
    pub fn endings(self) -> &'static [&'static str]
        ensures { map (λ ending. ending.now) result.now ≡ endings self }
    {
        match self {
            Value::One => &[""],
            Value::Named => &["", "_name"],
            Value::Numbers => &["", "_names"],
            Value::Flags => &["", ".bits", ".hex", ".names"],
            Value::Encrypted => &["", ".etype", ".etype_name", ".kvno", ".size"],
            Value::Ticket => &[
                "",
                ".etype",
                ".etype_name",
                ".kvno",
                ".size",
                ".refused.place",
                ".refused.why",
                ".refused.why_name",
            ],
            Value::Principal => &["", ".text", ".type", ".type_name", ".components", ".realm"],
            Value::Address => &["", ".type", ".type_name", ".hex"],
            Value::Checksum => &["", ".type", ".type_name", ".size"],
            Value::Offset => &["", ".seconds", ".microseconds"],
            Value::Flow => &[
                "",
                ".over",
                ".source",
                ".source.address",
                ".source.port",
                ".target",
                ".target.address",
                ".target.port",
            ],
            Value::Inside => &[""],
        }
    }
}

/// Returns the kinds of records of a listing: each with its fields, and what its origin tells.
#[tactic(auto, unfolding(crate::specs::Table::records))]
pub fn records(listing: Listing) -> &'static [Shape]
    ensures { map shape_of result.now ≡ records listing }
{
    match listing {
        Listing::Stream => &STREAM_SHAPES,
        Listing::Message => &MESSAGE_SHAPES,
        Listing::Keytab => &KEYTAB_SHAPES,
        Listing::Ccache => &CCACHE_SHAPES,
        Listing::Capture => &CAPTURE_SHAPES,
    }
}

/// Returns the kinds of what is inside of others.
#[tactic(auto, unfolding(crate::specs::Table::inside))]
pub fn inside() -> &'static [Shape]
    ensures { map shape_of result.now ≡ inside }
{
    &INSIDE_SHAPES
}

/// Returns the fields that say where a record of a listing is from.
#[tactic(auto, unfolding(crate::specs::Table::origin))]
pub fn origin(listing: Listing) -> &'static [Field]
    ensures { map field_of result.now ≡ origin listing }
{
    match listing {
        Listing::Stream => &OF_FILE,
        Listing::Message => &OF_LINE_VIA_FILE,
        Listing::Keytab => &OF_FILE,
        Listing::Ccache => &OF_FILE,
        Listing::Capture => &OF_PACKET_T_FLOW_T_US_FILE,
    }
}
