// The engine on lent buffers: load a script, one step, a run over a list of picks.
#![tactic(auto)]

pub mod answers;
pub mod buffers;
pub mod load;
pub mod run;
pub mod step;
