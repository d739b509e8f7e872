//! Numbers of rows.

ghost use Rattle.std.specs.Prelude.{◌≡◌, ◌≤◌, ◌^◌, length, map};
ghost use Rattle.verilog_tree.specs.Meaning.{flag};
ghost use Rattle.joined_module.specs.Rows.{words_read, row_words_read};
ghost use Rattle.joined_module.specs.Fields.{place_or, from_place, kind_of_from, seen_tag, most_by};
ghost use Rattle.joined_data.specs.Views.{origin_view, row_view};
ghost use Rattle.joined_data.specs.Figures.{slot_view, flag_at, figure_at};

use crate::flags::{Flag, flagged};
use crate::operands::{Side, input_number, input_operand, operand_number};
use crate::origins::{Slot, kind_of_origin, opened_boxes, origin_place, slot_origin, slot_tag};
use crate::rows::{Operand, Origin, Row, Sees};

/// A number that each row has.
#[derive(Clone, Copy)]
pub enum Figure<'a> {
    /// 0.
    Zero,
    /// The number of the key at which it ends.
    To,
    /// The greater number of its keys.
    Reach,
    /// Its moves.
    Moves,
    /// A flag.
    Told(Flag),
    /// How many signatures there are after it.
    Sigs,
    /// How many boxes.
    Boxes,
    /// How many boxes the fork has that it opens.
    Opened,
    /// How many words it reads.
    Words,
    /// The tag that it sees.
    Seen,
    /// The place of what it has at a slot among these kinds.
    SlotPlace(Slot, &'a [Origin]),
    /// The tag at a slot, or another.
    SlotTag(Slot, u64),
    /// The place of an operand among these kinds.
    InputPlace(Side, &'a [Operand]),
    /// An operand's number, or another.
    InputNumber(Side, u64),
}

/// A flag's number.
fn told(which: Flag, row: &Row) -> u64
    ensures { result ≡ flag (flag_at which (row_view row.now)) }
{
    if flagged(which, row) { 1 } else { 0 }
}

/// How many words of the cell that is looked at these read.
fn words_read(list: &[Origin]) -> u64
    ensures read { result ≡ words_read (map origin_view list.now) }
    ensures few { result ≤ 2 ^ 32 }
{
    match list {
        [] => 0,
        [first, rest @ ..] => match *first {
            Origin::Word(i) => (u64::from(i) + 1).max(words_read(rest)),
            _ => words_read(rest),
        },
    }
}

/// How many a row reads.
fn row_words_read(row: &Row) -> u64
    ensures { result ≡ row_words_read (row_view row.now) }
{
    let opened = words_read(opened_boxes(row.fork));
    let words = words_read(row.words);
    let boxes = words_read(row.boxes);
    words_read(row.sigs).max(boxes.max(words.max(opened)))
}

/// The tag that a row sees.
fn seen_tag(row: &Row) -> u64
    ensures { result ≡ seen_tag (row_view row.now) }
{
    match row.sees {
        Sees::Tag(t) => t,
        _ => 0,
    }
}

/// The place of what a row has at a slot.
fn slot_place(slot: Slot, kinds: &[Origin], row: &Row) -> u64
    ensures { result
        ≡ place_or 0 (λ t. from_place (map origin_view kinds.now) (kind_of_from t)) ((slot_view slot).source (row_view row.now)) }
{
    match slot_origin(slot, row) {
        None => 0,
        Some(o) => origin_place(kinds, kind_of_origin(o)),
    }
}

/// How many there are.
fn count<T>(list: &[T]) -> u64
    ensures { result ≡ length list.now }
{
    list.len() as u64
}

/// The number in a row.
pub fn figured(figure: &Figure, row: &Row) -> u64
    ensures { result ≡ figure_at figure.now (row_view row.now) }
{
    match *figure {
        Figure::Zero => 0,
        Figure::To => row.to,
        Figure::Reach => row.to.max(row.key),
        Figure::Moves => row.moves,
        Figure::Told(flag) => told(flag, row),
        Figure::Sigs => count(row.sigs),
        Figure::Boxes => count(row.boxes),
        Figure::Opened => count(opened_boxes(row.fork)),
        Figure::Words => row_words_read(row),
        Figure::Seen => seen_tag(row),
        Figure::SlotPlace(slot, kinds) => slot_place(slot, kinds, row),
        Figure::SlotTag(slot, other) => slot_tag(slot, row, other),
        Figure::InputPlace(side, kinds) => operand_number(kinds, input_operand(side, row)),
        Figure::InputNumber(side, other) => input_number(side, row, other),
    }
}

/// The most that rows have.
pub fn most(figure: &Figure, rows: &[Row]) -> u64
    ensures { result ≡ most_by (figure_at figure.now) (map row_view rows.now) }
{
    match rows {
        [] => 0,
        [first, rest @ ..] => figured(figure, first).max(most(figure, rest)),
    }
}
