//! Commands as lines of JSON (RFC 8259), and the replies to them.
#![tactic(auto)]

mod fields;
mod history;
mod laws;
mod line;
mod plain;
mod refusals;
mod reply;
mod rows;
mod slots;
mod texts;
mod tokens;
mod values;

pub use history::history_text;
pub use laws::reads_lines_once;
pub use line::{Line, LineFault, LineReader, MemberName, read_line};
pub use refusals::{MEMORY_REPLY, Refused, fault_into, memory_reply, refused_into, verdict_into};
pub use reply::{PublishedReply, accepted_into, published_into, reached_into, serial_into};
pub use texts::{ListLine, RoaLine, RoaWord, Shown, StageWord, list_text, roas_text, show_text};
