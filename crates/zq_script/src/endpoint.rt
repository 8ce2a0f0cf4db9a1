ghost use Rattle.zq_script.specs.Answer.{Gives};
ghost use Rattle.zq_script.specs.Place.{endpoint_of};

use crate::fault::{Cause, LineError};
use std::alloc::Global;
use zq_base::{Endpoint, EndpointError};

/// The endpoint that the word names.
pub(crate) fn read_endpoint(alloc: Global, word: &[u8]) -> Result<Endpoint, LineError>
    ensures { Gives result (endpoint_of word.now) }
{
    match Endpoint::read_octets(alloc, word) {
        Ok(Endpoint::Inproc(name)) => Ok(Endpoint::Inproc(name)),
        Ok(Endpoint::Tcp(_)) => Err(LineError::Fault(Cause::BadEndpoint)),
        Err(EndpointError::BadScheme) => Err(LineError::Fault(Cause::BadEndpoint)),
        Err(EndpointError::BadName) => Err(LineError::Fault(Cause::BadEndpoint)),
        Err(EndpointError::BadAddress) => Err(LineError::Fault(Cause::BadEndpoint)),
        Err(EndpointError::OutOfMemory) => Err(LineError::OutOfMemory),
    }
}
