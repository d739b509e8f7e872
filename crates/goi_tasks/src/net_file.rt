//! From the listing of a net to the net.

ghost use Rattle.std.specs.Prelude.{◌≡◌, IfOk, IfErr};
ghost use Rattle.goi_tasks.specs.NetFiles.{FaultyListing};
ghost use Rattle.goi_tasks.specs.Parts.{IsListedNet};
ghost use Rattle.goi_tasks.specs.Stops.{StopsFor};

use crate::stop::Stop;
use adequacy_laws::law_never_stuck;
use net_build::Net;
use net_text::accept_net;
use program_runs::law_tells;
use std::alloc::Global;

/// The net of the program that a text lists, as it was read; or the text's first fault.
pub(crate) fn net_of_listing(alloc: Global, bytes: &[u8]) -> Result<Net, Stop>
    ensures net { IfOk result (λ net. IsListedNet bytes.now net) }
    ensures fault { IfErr result (λ e. StopsFor (FaultyListing bytes.now) e) }
{
    law_never_stuck();
    law_tells();
    let (program, net) = accept_net(alloc, bytes)?;
    drop(program);
    Ok(net)
}
