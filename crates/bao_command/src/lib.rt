//! The program `bao_gather` as a function of its arguments, its files and its standard output and error.
#![tactic(auto)]

pub use commands::command;
pub use fault::Fault;
pub use program::run;
pub use survey_fault::SurveyFault;
pub use words::own_words;

mod commands;
mod fault;
mod gathering;
mod help;
mod lists;
mod mode;
mod places;
mod program;
mod refused;
mod survey;
mod survey_fault;
mod unread;
mod words;
