// How large a survey can be (Specification 2).

pub const GROUPS: usize = 128;

pub const LINKS: usize = 1_024;
