//! Readers, writers and files that fail, that are said to have another length than they have, or that tell none: what was written
//! before a fault, and that it is the answer.

mod encodings;
mod held;
mod inputs;
mod parts;
mod readers;
