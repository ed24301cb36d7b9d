//! Worked examples of the written machine, computed from its definitions: what small images write, cycle by
//! cycle, under small schedules. They stand in `proofs/`, each with the text that is expected.
#![tactic(auto)]
