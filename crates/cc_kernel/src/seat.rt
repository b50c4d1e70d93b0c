use cc_base::Grant;
use cc_rules::ProcessStanding;

/// Where a process is.
#[derive(Drop)]
pub enum Whereabouts<P> {
    /// Here, and still to be given this grant.
    Ready { process: P, grant: Grant },
    /// Out, with whoever picked it.
    Out,
    /// Here, until its request is answered.
    Waits { process: P },
    /// Nowhere: it is over.
    Left,
}

/// How a process stands, and where it is.
#[derive(Drop)]
pub struct Seat<P> {
    pub standing: ProcessStanding,
    pub whereabouts: Whereabouts<P>,
}
