//! Laws of faithful transfers: what each call leaves faithful, and what a transfer that has ended
//! has. Each function does nothing; its clause is the law.

ghost use Rattle.state_transfer.specs.FaithfulTransfers as words;

/// An ended transfer whose provider is there has equal copies at both nodes.
pub fn ended_transfers_are_equal()
    ensures { words.EndedTransfersAreEqual }
{}

/// Without nodes and transfers, all is faithful.
pub fn nothing_is_faithful()
    ensures { words.NothingIsFaithful }
{}

/// A node that joins leaves transfers faithful.
pub fn joins_stay_faithful()
    ensures { words.JoinsStayFaithful }
{}

/// A write or an erasure that names both provider and receiver of each transfer, or neither, leaves
/// transfers faithful.
pub fn writes_stay_faithful()
    ensures { words.WritesStayFaithful }
{}

/// A chunk that is sent leaves transfers faithful.
pub fn chunks_stay_faithful()
    ensures { words.ChunksStayFaithful }
{}

/// A chunk that lands leaves transfers faithful.
pub fn landings_stay_faithful()
    ensures { words.LandingsStayFaithful }
{}

/// Copies that a node drops leave transfers faithful.
pub fn drops_stay_faithful()
    ensures { words.DropsStayFaithful }
{}

/// Transfers that begin anew, that are cancelled or closed, and segments that are forgotten, leave
/// the other transfers faithful.
pub fn what_leaves_stays_faithful()
    ensures restarts { words.RestartsStayFaithful }
    ensures cancels { words.CancelsStayFaithful }
    ensures forgotten { words.ForgottenStayFaithful }
    ensures closed { words.ClosedStayFaithful }
{}

/// A node that departs leaves transfers faithful.
pub fn departures_stay_faithful()
    ensures { words.DeparturesStayFaithful }
{}

/// A tick leaves transfers faithful.
pub fn ticks_stay_faithful()
    ensures { words.TicksStayFaithful }
{}
