//! The notice board: a writer shows sheets, and readers look at the last one without waiting.
//!
//! A sheet says what an edition has of each authority. Contracts see the list of the editions that a
//! board has shown, of which the last one's sheet is kept, and for each viewer the list that it has
//! seen, which is a prefix of that. The board tells a viewer of the whole list, and viewers tell one
//! another.
#![tactic(auto)]

mod board;
pub mod laws;
mod lists;
mod notices;
mod sheets;
mod shown;
mod viewer;
mod views;

pub use board::Board;
pub use sheets::{Sheet, SheetRow, ShownStage};
pub use shown::{EditionNumbers, ListId, Numbers, ShownEdition};
pub use viewer::Viewer;
