// A job's matches as they are rendered: the rows, the fragments of their templates, and how far each text has come.
#![tactic(auto)]

pub mod told; // told.rt: a fragment of a template
pub mod matches; // matches.rt: the rows
pub mod frames; // frames.rt: how far each text has come
