use spec_control::Req;
use zq_base::EndId;

/// What a session or a listener has for the control plane.
#[derive(Drop)]
pub enum Due {
    /// A request of its own.
    Request(Req),
    /// The delimiter stands at the front of the pipe that this end reads.
    Delimiter(EndId),
}
