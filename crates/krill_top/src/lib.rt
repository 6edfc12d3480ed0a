//! Sessions of commands and publications over the desks of a tree, and the one call that does all that the program
//! does.
#![tactic(auto)]

mod bases;
mod command_fault;
mod desks;
mod ends;
mod faults;
mod fronts;
mod generated;
mod handler;
mod instance;
mod keeping;
mod laws;
mod opening;
mod press_opening;
mod pressing;
mod publication;
mod publish_fault;
mod reads;
mod reply_lines;
mod running;
mod serving;
mod session_id;
mod sharing;
mod sinks;
mod starting;
mod summary;
mod words;
mod working;

pub use command_fault::CommandFault;
pub use desks::{DESKS, Desks};
pub use ends::Ends;
pub use faults::{OpenFault, RunFault, fault_text};
pub use generated::Wanted;
pub use handler::Handler;
pub use instance::Instance;
pub use line_loop::{
    Clock, ListClock, MemorySink, MemorySource, SessionEnd, Sink, SinkStop, Source, SourceStop,
    StreamSink, StreamSource, SystemClock,
};
pub use publication::Publication;
pub use publish_fault::PublishFault;
pub use running::{RunEnd, run_krill};
pub use serving::Session;
pub use session_lines::{Kept, SessionEnds};
pub use summary::Summary;
pub use words::{Asked, Doing, read_words};
