//! Why a call isn't made.

use line_requests::Fault;

/// Why a call isn't made. It changes nothing.
#[derive(Clone, Copy, Debug)]
pub enum CallFault {
    /// The line has no such box, or its plan doesn't know such a call there.
    NotKnown,
    /// What a service would answer to a request for it.
    Fault(Fault),
    /// Memory ran out.
    NoMemory,
}
