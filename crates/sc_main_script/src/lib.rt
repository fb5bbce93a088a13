//! Scripts of a drive: their words and lines, the whole script with its first bad line, and the printed tokens
//! and lines of a report.
#![tactic(auto)]

mod choices;
mod draft;
mod frames;
mod good_laws;
mod inputs;
mod job_rule;
mod level_rule;
mod level_rules;
mod level_size;
mod line;
mod lines;
mod place_rule;
mod policies;
mod reading;
mod run_rule;
mod script;

pub use draft::Draft;
pub use frames::frame;
pub use good_laws::read_scripts_are_good;
pub use inputs::Inputs;
pub use job_rule::JobRule;
pub use level_rule::LevelRule;
pub use level_rules::LevelRules;
pub use level_size::LevelSize;
pub use line::{HoldLine, LevelLine, Line};
pub use lines::line_at;
pub use place_rule::PlaceRule;
pub use policies::PolicyName;
pub use reading::read_script;
pub use run_rule::RunRule;
pub use script::{Script, ScriptError};
