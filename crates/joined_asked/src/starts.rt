//! That nothing is looked at where a run begins.

ghost use Rattle.std.specs.Prelude.{◌≡◌};
ghost use Rattle.joined_numbers.specs.Within.{is_nowhere, starts_within};
ghost use Rattle.joined_table.specs.Views.{site_view, sites_view};

use circuit_rows::start;
use joined_check::site;
use joined_table::{Key, Site, SiteAt};
use net_build::Net;
use std::alloc::Global;

/// Whether nothing is looked at.
fn is_nowhere(site: Site) -> bool
    ensures { result ≡ is_nowhere (site_view site) }
{
    match site {
        Site::Nowhere => true,
        Site::OnSigs | Site::OnBoxes | Site::OnValue => false,
    }
}

/// Whether nothing is looked at at the key at which a run begins.
pub fn starts_within(alloc: Global, net: &Net, sites: &[SiteAt]) -> bool
    ensures { result ≡ starts_within net.now (sites_view sites.now) }
{
    let key = Key {
        answers: false,
        channel: start(net),
        marks: Vec::new(alloc),
    };
    is_nowhere(site(sites, &key))
}
