// Flat functions on words: reading one, clearing a buffer of them and copying into one, the tags and their table,
// where a node ends, closedness, names, the revision numbers in use, scripts, and the signed meaning.
#![tactic(auto)]

pub mod buffers;
pub mod closed;
pub mod in_use;
pub mod names;
pub mod numbers;
pub mod reading;
pub mod script;
pub mod table;
pub mod tags;
pub mod walk;
