// Characters: UTF-8, code points, encoding and white space.
#![tactic(auto)]

pub mod code_points;
pub mod encoding;
pub mod utf8;
pub mod white_space;
