//! That rows take their pointers and numbers from within.

ghost use Rattle.std.specs.Prelude.{◌≡◌, ◌+◌, ◌≤◌, ◌^◌, map, length, nat_lt};
ghost use Rattle.joined_rows.specs.Compound.{terms_of};
ghost use Rattle.joined_numbers.specs.Within.{source_within, sources_within, amount_within, walker_within, half_within, forks_within};
ghost use Rattle.joined_numbers.specs.Within.{named_within, looks_within, lands_within, boxes_within, second_within, way_within};
ghost use Rattle.joined_numbers.specs.Within.{row_within, seen_within, entry_within};
ghost use Rattle.joined_table.specs.Views.{term_view, mark_view, amount_view, walker_view, half_view, fork_view, named_view, source_view};
ghost use Rattle.joined_table.specs.Views.{second_view, way_view, joined_row_view, site_view, seen_view, sites_view, entry_view};

use joined_check::site;
use joined_table::{
    Amount, Entry, Fork, Half, JoinedRow, Key, Mark, Named, Second, Seen, Site, SiteAt, Source,
    Term, Walker, Way,
};
use std::alloc::Global;

/// Whether a source is within so many signatures and boxes.
fn source_within(sigs: usize, boxes: usize, source: &Source) -> bool
    ensures { result ≡ source_within sigs boxes (source_view source.now) }
{
    match source {
        Source::Sig(i) => (*i as usize) < sigs,
        Source::Box(i) => (*i as usize) < boxes,
        Source::Word(i) => *i < 2,
        Source::Part(_) => true,
    }
}

/// Whether all are.
fn sources_within(sigs: usize, boxes: usize, sources: &[Source]) -> bool
    ensures { result ≡ sources_within sigs boxes (map source_view sources.now) }
{
    match sources {
        [] => true,
        [source, rest @ ..] => source_within(sigs, boxes, source)
            && sources_within(sigs, boxes, rest),
    }
}

/// A number of the net is below those of the ports.
fn number_within(ports: usize, number: u64) -> bool
    ensures { result ≡ nat_lt number (2 ^ 64 + ports) }
{
    let _ = (ports, number);
    true
}

/// A port's number is one of so many.
fn port_within(ports: usize, port: u32) -> bool
    ensures { result ≡ nat_lt (2 ^ 64 + port) (2 ^ 64 + ports) }
{
    (port as usize) < ports
}

/// Whether the numbers of an amount are those of a net with so many ports.
fn amount_within(ports: usize, a: &Amount) -> bool
    ensures { result ≡ amount_within (2 ^ 64 + ports) (amount_view a.now) }
{
    match a {
        Amount::Name(_) => true,
        Amount::Number(n) => number_within(ports, *n),
        Amount::Port(n) => port_within(ports, *n),
        Amount::More(x) | Amount::Less(x) => amount_within(ports, x),
        Amount::Both(_, x, y) => amount_within(ports, x) && amount_within(ports, y),
    }
}

/// The same of an answer.
fn walker_within(ports: usize, x: &Walker) -> bool
    ensures { result ≡ walker_within (2 ^ 64 + ports) (walker_view x.now) }
{
    match x {
        Walker::Asks(_) => true,
        Walker::Says(a, _) => amount_within(ports, a),
    }
}

/// The same of what a fork has.
fn half_within(ports: usize, half: &Half) -> bool
    ensures { result ≡ half_within (2 ^ 64 + ports) (half_view half.now) }
{
    match half {
        Half::Waiting(_) => true,
        Half::Left(a) => amount_within(ports, a),
    }
}

/// The same of forks.
fn forks_within(ports: usize, forks: &[Fork]) -> bool
    ensures { result ≡ forks_within (2 ^ 64 + ports) (map fork_view forks.now) }
{
    match forks {
        [] => true,
        [fork, rest @ ..] => half_within(ports, &fork.half) && forks_within(ports, rest),
    }
}

/// The same of a token with forks.
fn named_within(ports: usize, there: &Named) -> bool
    ensures { result ≡ named_within (2 ^ 64 + ports) (named_view there.now) }
{
    walker_within(ports, &there.live) && forks_within(ports, &there.forks)
}

/// How many signatures a work stack has.
fn signs(work: &[Mark]) -> usize
    ensures count { result ≡ length (terms_of (map mark_view work.now)) }
    ensures few { result ≤ length work.now }
{
    match work {
        [] => 0,
        [Mark::Sign(_), rest @ ..] => 1 + signs(rest),
        [Mark::R | Mark::L, rest @ ..] => signs(rest),
    }
}

/// Whether there is something where it is looked at.
fn looks_within(site: Site, work: &[Mark], boxes: &[Term]) -> bool
    ensures { result ≡ looks_within (site_view site) (terms_of (map mark_view work.now)) (map term_view boxes.now) }
{
    match site {
        Site::OnSigs => signs(work) > 0,
        Site::OnBoxes => !boxes.is_empty(),
        Site::Nowhere | Site::OnValue => true,
    }
}

/// Whether there is where a row leads.
fn lands_within(alloc: Global, sites: &[SiteAt], x: &Walker) -> bool
    ensures { result ≡ lands_within (sites_view sites.now) (walker_view x.now) }
{
    let spot = x.spot();
    let key = Key {
        answers: false,
        channel: spot.channel,
        marks: Vec::new(alloc),
    };
    looks_within(site(sites, &key), &spot.work, &spot.boxes)
}

/// Whether each fork has so many boxes.
fn boxes_within(count: usize, forks: &[Fork]) -> bool
    ensures { result ≡ boxes_within count (map fork_view forks.now) }
{
    match forks {
        [] => true,
        [fork, rest @ ..] => fork.boxes.len() == count && boxes_within(count, rest),
    }
}

/// Whether a second part is within.
fn second_within(alloc: Global, sites: &[SiteAt], ports: usize, second: &Second) -> bool
    ensures { result ≡ second_within (sites_view sites.now) (2 ^ 64 + ports) (second_view second.now) }
{
    let count = second.boxes.len();
    sources_within(0, count, &second.given)
        && named_within(ports, &second.to)
        && lands_within(alloc, sites, &second.to.live)
        && boxes_within(count, &second.to.forks)
}

/// Whether a row's end is.
fn way_within(alloc: Global, sites: &[SiteAt], ports: usize, x: &Walker, way: &Way) -> bool
    ensures { result ≡ way_within (sites_view sites.now) (2 ^ 64 + ports) (walker_view x.now) (way_view way.now) }
{
    match way {
        Way::Onwards => lands_within(alloc, sites, x),
        Way::AnswersRun => true,
        Way::AnswersFork(second) => second_within(alloc, sites, ports, second),
    }
}

/// Whether a row is.
fn row_within(alloc: Global, sites: &[SiteAt], ports: usize, row: &JoinedRow) -> bool
    ensures { result ≡ row_within (sites_view sites.now) (2 ^ 64 + ports) (joined_row_view row.now) }
{
    let spot = row.from.spot();
    sources_within(signs(&spot.work), spot.boxes.len(), &row.given)
        && named_within(ports, &row.to)
        && way_within(alloc, sites, ports, &row.to.live, &row.way)
}

/// Whether what is seen is what is looked at.
fn seen_within(site: Site, seen: &Seen) -> bool
    ensures { result ≡ seen_within (site_view site) (seen_view seen.now) }
{
    match (site, seen) {
        (Site::Nowhere, Seen::Nothing)
        | (Site::OnSigs | Site::OnBoxes, Seen::Shaped(_))
        | (Site::OnValue, Seen::ZeroIs(_)) => true,
        _ => false,
    }
}

/// Whether a row of a table takes its pointers and numbers from within, where a net has so many ports.
pub fn entry_within(alloc: Global, sites: &[SiteAt], ports: usize, entry: &Entry) -> bool
    ensures { result ≡ entry_within (sites_view sites.now) (2 ^ 64 + ports) (entry_view entry.now) }
{
    seen_within(site(sites, &entry.key), &entry.seen) && row_within(alloc, sites, ports, &entry.row)
}
