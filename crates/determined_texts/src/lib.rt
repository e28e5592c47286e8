//! That the contracts of `b3word`, `b3tree`, `bao_text`, `bao_check` and `bao_bind` determine what their functions
//! answer: each function here asks one of theirs twice, of the same, and what it ensures is that both answers are equal.
#![tactic(auto)]

mod audits;
mod checks;
mod feeding;
mod outboards;
mod pieces;
mod streams;
mod tree;
mod whole;
mod words;
mod writing;
