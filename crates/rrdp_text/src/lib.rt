//! The files of RRDP (RFC 8182 section 3.5) as texts, and the locator of a trust anchor (RFC 8630
//! section 2).
//!
//! A text has one form for each value: fixed templates, one element a line.
#![tactic(auto)]

mod answers;
mod fault;
mod fields;
mod files;
mod laws;
mod lines;
mod locator;
mod parts;
mod reading;
mod sizes;
mod writing;

pub use answers::{read_delta, read_snapshot};
pub use fault::XmlFault;
pub use files::{Changes, DeltaFile, DeltaRef, FileRef, SnapshotFile};
pub use laws::texts_are_read_back;
pub use locator::locator_text;
pub use sizes::{delta_len, snapshot_len};
pub use writing::{delta_text, notification_text, snapshot_text};

const SNAPSHOT_HEAD: &str =
    "<snapshot xmlns=\"http://www.ripe.net/rpki/rrdp\" version=\"1\" session_id=\"";

const DELTA_HEAD: &str =
    "<delta xmlns=\"http://www.ripe.net/rpki/rrdp\" version=\"1\" session_id=\"";

const NOTIFICATION_HEAD: &str =
    "<notification xmlns=\"http://www.ripe.net/rpki/rrdp\" version=\"1\" session_id=\"";
