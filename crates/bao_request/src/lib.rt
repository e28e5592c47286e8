//! What the arguments of `bao_gather` ask for: a request or a survey, parsed with `clap`.
#![tactic(auto)]

mod reading;
mod rules;
mod tasks;

pub use reading::parse;
pub use tasks::{Asked, GatherTask, Request, Survey, SurveyTask, Task};
