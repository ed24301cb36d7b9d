//! Peers: two images whose machines no one outside tells apart. The law by which a text that the checker accepts makes
//! them, and some that there are.
#![tactic(auto)]

ghost use Rattle.peer_rows.specs.Laws.{AcceptedArePeers, AcceptedButAnswers};
ghost use Rattle.peer_rows.specs.Rows.{BlindPeers, BalancedPeers, ReturningPeers, PeersAreInterrupted};

/// Two images that differ in the data of a module alone are peers, where the rule of flow accepts the module's text. Where it
/// does so under terms, and no public word differs, they are peers but for the answers.
pub fn accepted_are_peers()
    ensures peers { AcceptedArePeers }
    ensures answers { AcceptedButAnswers }
{}

/// There are peers: a called module that never looks at its data, one whose data decide a branch with arms of equal
/// times, and one that no rule accepts and that never looks at its data all the same. They are interrupted in a call.
pub fn there_are_peers()
    ensures blind { BlindPeers }
    ensures balanced { BalancedPeers }
    ensures interrupted { ReturningPeers }
    ensures hidden { PeersAreInterrupted }
{}
