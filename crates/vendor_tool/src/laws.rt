//! The laws of challenges, traces and judgements, each the contract of a function that does nothing.
ghost use Rattle.vendor_tool.specs.Laws.{ChallengesAreRead, GenuineIsTagged, GenuineIsModules, TracesAreRead};

/// A challenge has one text, which is read as that challenge, and no other line is.
pub fn one_line_a_challenge()
    ensures read { ChallengesAreRead }
{}

/// The lines of a machine's events and its end line are read as the bytes that it sent.
pub fn traces_are_read()
    ensures read { TracesAreRead }
{}

/// A challenge is called genuine exactly where the sixteen bytes in its place are the tag of its nonce.
pub fn genuine_is_tagged()
    ensures tagged { GenuineIsTagged }
    ensures modules { GenuineIsModules }
{}
