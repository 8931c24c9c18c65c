//! Scripts of steps: what a world does of their lines, and how a script ends.
#![tactic(auto)]

mod accesses;
mod lines;
mod misfit;
mod printing;
mod script;
mod size;
mod usage;
mod words;

pub use lines::{Command, read_command, read_shape};
pub use misfit::{Expected, Misfit, Quoted, misfit_of};
pub use printing::Printed;
pub use script::{Ending, Script, run, tell_ending};
pub use size::Size;
pub use usage::{refuse_words, tell_usage};
pub use words::read_number;
