//! How a row ends.

ghost use Rattle.std.specs.Prelude.{◌≡◌, ◌<◌, ◌^◌, [], Some, map, length, IfOk};
ghost use Rattle.std.specs.Option.{option_map};
ghost use Rattle.net_rows.specs.Rows.{falls, row_of};
ghost use Rattle.circuit_rows.specs.Views.{channel_of, row_view};
ghost use Rattle.joined_rows.specs.Open.{some, both, says, spot};
ghost use Rattle.joined_core.specs.Right.{alone, landed, is_answer, answers_on, found_answers, right_of, right_question};
ghost use Rattle.joined_core.specs.Right.{after_left, after_join, found_join};
ghost use Rattle.joined_core.specs.Right.{second_right, way_right};
ghost use Rattle.joined_numbers.specs.Ports.{with_ports};
ghost use Rattle.joined_table.specs.Views.{term_view, spot_view, walker_view, fork_view, named_view, second_view, way_view};

use crate::shapes::{all_few, all_fit, boxes_fit, forks_few, marks_few};
use crate::ticks::leads;
use circuit_rows::{Channel, Found, Row, row_of};
use joined_table::{Amount, Fork, Half, Named, Second, Seen, Spot, Term, Walker, Way, copy_terms};
use net_build::{Net, Node};
use pcf_values::{Operator, Side};
use std::alloc::{AllocError, Global};

/// Whether a row may end there.
fn landed(there: &Named) -> bool
    ensures { result ≡ landed (named_view there.now) }
{
    let spot = there.live.spot();
    marks_few(&spot.work) && all_few(&spot.boxes) && forks_few(&there.forks)
}

/// Whether it is an answer without marks, and no fork of the row is open.
fn is_answer(there: &Named) -> bool
    ensures { result ≡ is_answer (walker_view there.now.live) (map fork_view there.now.forks.items) }
{
    match &there.live {
        Walker::Says(_, spot) => there.forks.is_empty() && spot.work.is_empty(),
        Walker::Asks(_) => false,
    }
}

/// Whether a row is that of the run's answer.
fn answers_on(row: Row) -> bool
    ensures { result ≡ answers_on (row_view row) }
{
    match row {
        Row::Answer => true,
        _ => false,
    }
}

/// Whether the row of a channel is.
fn found_answers(net: &Net, ports: &[u32], channel: Channel) -> bool
    ensures { result ≡ found_answers (row_of (with_ports net.now ports.now) (channel_of channel)) }
{
    match row_of(net, channel) {
        Some(found) => answers_on(found.row),
        None => false,
    }
}

/// The channel of a node's right question.
fn right_of(node: Node) -> Option<Channel>
    ensures { option_map channel_of result ≡ right_of (Some node) }
{
    match node {
        Node::Binary { right, .. } => Some(Channel {
            wire: right,
            up: true,
        }),
        _ => None,
    }
}

/// The channel of the right question of the node of a number.
fn right_question(net: &Net, ports: &[u32], node: u32) -> Option<Channel>
    ensures { option_map channel_of result ≡ right_question (with_ports net.now ports.now) node }
{
    match net.node(node) {
        Some(node) => right_of(node),
        None => None,
    }
}

/// Where a second part begins after the left answer.
fn after_left(
    alloc: Global,
    node: u32,
    boxes: &[Term],
    question: Option<Channel>,
) -> Result<Option<Named>, AllocError>
    ensures { IfOk result (λ r. option_map named_view r ≡ after_left node (map term_view boxes.now) (option_map channel_of question)) }
{
    match question {
        Some(channel) => {
            let mut forks = Vec::new(alloc);
            let kept = copy_terms(alloc, boxes)?;
            forks.push(Fork {
                node,
                boxes: kept,
                half: Half::Left(Amount::Name(0)),
            })?;
            let boxes = copy_terms(alloc, boxes)?;
            Ok(Some(Named {
                live: Walker::Asks(Spot {
                    channel,
                    work: Vec::new(alloc),
                    boxes,
                }),
                forks,
            }))
        }
        None => Ok(None),
    }
}

/// Where it begins after the right one.
fn after_right(
    alloc: Global,
    operator: Operator,
    wire: u32,
    boxes: &[Term],
) -> Result<Named, AllocError>
    ensures { IfOk result (λ r. named_view r ≡
        alone (says (both operator (some 1) (some 0)) (spot (falls wire) [] (map term_view boxes.now)))) }
{
    let left = Box::new(alloc, Amount::Name(1))?;
    let right = Box::new(alloc, Amount::Name(0))?;
    let boxes = copy_terms(alloc, boxes)?;
    Ok(Named {
        live: Walker::Says(
            Amount::Both(operator, left, right),
            Spot {
                channel: Channel { wire, up: false },
                work: Vec::new(alloc),
                boxes,
            },
        ),
        forks: Vec::new(alloc),
    })
}

/// Where it begins by the join's row.
fn after_join(
    alloc: Global,
    net: &Net,
    ports: &[u32],
    found: Found,
    boxes: &[Term],
) -> Result<Option<Named>, AllocError>
    ensures { IfOk result (λ r. option_map named_view r ≡
        after_join (with_ports net.now ports.now) found.node (row_view found.row) (map term_view boxes.now)) }
{
    match found.row {
        Row::Join {
            side: Side::Left,
            ..
        } => after_left(
            alloc,
            found.node,
            boxes,
            right_question(net, ports, found.node),
        ),
        Row::Join {
            operator,
            side: Side::Right,
            wire,
        } => Ok(Some(after_right(alloc, operator, wire, boxes)?)),
        _ => Ok(None),
    }
}

/// Where a second part begins by the row of a channel, with these names of the fork's boxes.
///
/// # Errors
///
/// `AllocError` where there is no memory for it.
pub fn found_join(
    alloc: Global,
    net: &Net,
    ports: &[u32],
    channel: Channel,
    boxes: &[Term],
) -> Result<Option<Named>, AllocError>
    ensures { IfOk result (λ r. option_map named_view r ≡
        found_join (with_ports net.now ports.now) (row_of (with_ports net.now ports.now) (channel_of channel)) (map term_view boxes.now)) }
{
    match row_of(net, channel) {
        Some(found) => after_join(alloc, net, ports, found, boxes),
        None => Ok(None),
    }
}

/// Whether a second part is one of the net, and begins at this answer.
fn second_right(
    alloc: Global,
    net: &Net,
    ports: &[u32],
    answer: &Spot,
    second: &Second,
) -> Result<bool, AllocError>
    requires { length ports.now < 2 ^ 32 }
    ensures { IfOk result (λ b. b ≡ second_right (with_ports net.now ports.now) (spot_view answer.now) (second_view second.now)) }
{
    if second.boxes.len() != answer.boxes.len() {
        return Ok(false);
    }
    let from = found_join(alloc, net, ports, answer.channel, &second.boxes)?;
    if !leads(alloc, net, ports, second.moves, from, &second.to)? {
        return Ok(false);
    }
    Ok(
        landed(&second.to)
            && boxes_fit(&second.given, None, 0, &second.boxes)
            && all_fit(&Seen::Nothing, &second.given),
    )
}

/// Whether a row ends as the net does.
pub(crate) fn way_right(
    alloc: Global,
    net: &Net,
    ports: &[u32],
    there: &Named,
    way: &Way,
) -> Result<bool, AllocError>
    requires { length ports.now < 2 ^ 32 }
    ensures { IfOk result (λ b. b ≡ way_right (with_ports net.now ports.now) (named_view there.now) (way_view way.now)) }
{
    match way {
        Way::Onwards => Ok(landed(there)),
        Way::AnswersRun => Ok(
            is_answer(there) && found_answers(net, ports, there.live.spot().channel),
        ),
        Way::AnswersFork(second) => {
            if !is_answer(there) {
                return Ok(false);
            }
            second_right(alloc, net, ports, there.live.spot(), second)
        }
    }
}
