//! Pre-authentication data that are in the clear (RFC 4120, 5.2.7; RFC 6113, 5.4; MS-SFU, 2.2.1;
//! MS-KILE, 2.2.3 and 2.2.10), as views of the octets of a padata-value; and the data of errors but
//! METHOD-DATA (RFC 4120, 5.9.1; MS-KILE, 2.2.1 and 2.2.2), as views of the octets of e-data.
//!
//! A type here is described by its fields as those of `krb_msg` are, and [`krb_msg::view_whole`]
//! views octets that are all of one: of [`PaForUser`], [`PaPacOptions`], [`PaFxFastRequest`],
//! [`PaFxFastReply`] and [`KerbErrorData`] as the plain numbers and borrowed octets of
//! [`PaForUserView`] and so on, of [`EtypeInfo`], [`EtypeInfo2`] and [`TypedData`] as a list, which
//! [`krb_msg::next_item`] walks. [`view_pac_request`] reads a PA-PAC-REQUEST, and
//! [`view_kerb_ext_error`] a KERB-EXT-ERROR.
//!
//! They are judged leniently, as messages are in the lenient profile, and nothing says why octets
//! are none of a type. No encrypted part is opened, nothing is encoded or copied, and no call
//! allocates; so values with fields of their own, as [`PaForUser`], are what contracts speak of.
//!
//! `specs/` has the types as terms (`Grammar`), the values of views (`Types`), PA-PAC-REQUEST
//! (`PacRequest`), and KERB-EXT-ERROR (`ExtendedError`).
#![tactic(auto)]

mod etype_info2_entry;
mod etype_info_entry;
mod kerb_error_data;
mod kerb_ext_error;
mod krb_fast_armor;
mod krb_fast_armored_rep;
mod krb_fast_armored_req;
mod pa_for_user;
mod pa_pac_options;
mod pac_request;
mod typed_data_item;

pub use etype_info_entry::{EtypeInfo, EtypeInfoEntry, EtypeInfoEntryView};
pub use etype_info2_entry::{EtypeInfo2, EtypeInfo2Entry, EtypeInfo2EntryView};
pub use kerb_error_data::{KerbErrorData, KerbErrorDataView};
pub use kerb_ext_error::{KerbExtError, view_kerb_ext_error};
pub use krb_fast_armor::{KrbFastArmor, KrbFastArmorView};
pub use krb_fast_armored_rep::{KrbFastArmoredRep, KrbFastArmoredRepView, PaFxFastReply};
pub use krb_fast_armored_req::{KrbFastArmoredReq, KrbFastArmoredReqView, PaFxFastRequest};
pub use pa_for_user::{PaForUser, PaForUserView};
pub use pa_pac_options::{PaPacOptions, PaPacOptionsView};
pub use pac_request::view_pac_request;
pub use typed_data_item::{TypedData, TypedDataItem, TypedDataItemView};
