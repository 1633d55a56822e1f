// Laws of requests.
ghost use Rattle.std.specs.Prelude.{ℕ, List};
ghost use Rattle.cs_laws.specs.declared.answers.Entry.{Entry};
ghost use Rattle.cs_laws.specs.Laws.{LeasesStand, RepliesStand, RequestsStandOnce};
ghost use Rattle.cs_laws.specs.Runs.{IsRun};

/// After each entry the standing requests have numbers that rise strictly. A request of which the client
/// was told that its record is durable stands exactly once there and ever after, with the same answer.
pub fn requests_stand_once()
    ensures { (pages : ℕ) (h : List Entry) → IsRun pages h → RequestsStandOnce h }
{}

/// While the server's session is active, each request to which an answer was delivered stands exactly
/// once, with that answer.
pub fn replies_stand()
    ensures { (pages : ℕ) (h : List Entry) → IsRun pages h → RepliesStand h }
{}

/// While the server's session is active, an entry on which the client has a lease that a look-up would
/// tell stands in the namespace, with the inode that it would tell.
pub fn leases_stand()
    ensures { (pages : ℕ) (h : List Entry) → IsRun pages h → LeasesStand h }
{}
