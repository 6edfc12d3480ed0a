//! The streams of a session, and the loop that answers its lines.
//!
//! A session reads lines from a [`Source`] and writes the replies to a [`Sink`]. What the lines mean is
//! the [`LineHandler`]'s business.
#![tactic(auto)]

mod answering;
mod clocks;
mod host_streams;
mod memory;
mod played;
mod raw_streams;
mod session;
mod streams;
mod traits;
mod window;

pub use answering::LineHandler;
pub use clocks::{ClockOver, HostClock, PlayedClock, RawClock, SystemClock};
pub use host_streams::{HostReader, HostWriter};
pub use memory::{ListClock, MemorySink, MemorySource};
pub use played::{PlayedReader, PlayedWriter};
pub use raw_streams::{RawReader, RawWriter};
pub use session::{SessionEnd, serve_lines};
pub use streams::{SinkOver, SourceOver, StreamSink, StreamSource};
pub use traits::{Clock, Sink, SinkStop, Source, SourceStop};

/// The greatest length of a line that is kept, in bytes, without its line feed.
pub const LINE_LIMIT: usize = 1_048_576;

/// How many bytes a session takes at most.
pub const SESSION_LIMIT: u64 = 1 << 40;

/// At how many bytes of replies they are given to the sink before another line is answered.
pub const REPLIES_LIMIT: usize = 65_536;
