// The policies that drawings and lent planes state, all in specs/ and proofs/; in the modules, the record of each source.
#![tactic(auto)]

pub mod drawn_planes;
pub mod drawn_records;
pub mod lent_records;
