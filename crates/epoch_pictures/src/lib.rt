//! Pictures of runs: the steps of a script, laid out in lanes by `epoch_layouts`, are drawn as SVG.
#![tactic(auto)]

mod escape;
mod from_script;
mod pen;
mod reasons;
mod sheet;

pub use epoch_layouts::{
    Arrow, AtOnce, Bar, DeferralMark, MOST_COLUMNS, MOST_STEPS, Mark, Moment, Picture, Refusal,
    Stop, lay_out, record,
};
pub use escape::escaped;
pub use from_script::run;
pub use sheet::draw;
