//! That the contracts of `b3par`, `bao_windows`, `bao_files`, `bao_decode`, `bao_tasks`, `bao_script`, `bao_request` and
//! `bao_command` determine what their functions answer, as far as they do: each function here asks one of theirs twice,
//! over sources, readers, writers and files whose bytes are known to be the same, and what it ensures is that both
//! answers are. What a file has no contract knows, so that there is no law of what is opened by its path. The laws of
//! `manual` say what the program does with a command line, over files in memory.
#![tactic(auto)]

mod commands;
mod decoding;
mod gathering;
mod lacks;
mod lists;
mod manual;
mod printing;
mod reading;
mod replaying;
mod requests;
mod scripts;
mod slicing;
mod sources;
mod values;
mod windows;
mod worths;
mod writing;
