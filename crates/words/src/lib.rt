// The words, texts and output buffers of document 01: the leaves that every other crate stands on.
#![tactic(auto)]

pub mod slices; // slices.rt: parts of a list of words or of a text
pub mod fields; // fields.rt: the fields of each word
pub mod texts; // texts.rt: ranges of a text, and stand-in names
pub mod buffer; // buffer.rt: laying bytes in an output buffer
