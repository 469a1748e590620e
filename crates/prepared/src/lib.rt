// A rule made ready for matching: the marks of its pattern's elements, and the limits of its placeholders.
#![tactic(auto)]

pub mod marking; // marking.rt: what the rule says of its pattern's elements
pub mod limits; // limits.rt: what the constraints of its placeholders allow
