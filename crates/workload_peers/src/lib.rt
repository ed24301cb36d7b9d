//! Images of the workload are peers, whatever the data of their module: the law that its runs look alike.
#![tactic(auto)]

ghost use Rattle.workload_peers.specs.Laws.{WorkloadsArePeers};

/// The images of two data are peers.
pub fn workloads_are_peers()
    ensures peers { WorkloadsArePeers }
{
    // It does nothing: by its clause an accepted text makes peers.
    peer_rows::accepted_are_peers();
}
