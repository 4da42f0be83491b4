//! Where commands begin.

ghost use Rattle.selection_laws.specs.Hosts.{HostsHold, HostsOfPairsHold};

/// The affected host holds both ends of the selection.
pub fn hosts_hold()
    ensures { HostsHold }
{}

/// The host of a pair of points holds both.
pub fn hosts_of_pairs_hold()
    ensures { HostsOfPairsHold }
{}
