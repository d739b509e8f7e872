//! What a row names is there.

ghost use Rattle.std.specs.Prelude.{◌≡◌, map, is_some};
ghost use Rattle.joined_module.specs.Rows.{row_looks, opened_boxes};
ghost use Rattle.joined_module.specs.Machine.{has_cell};
ghost use Rattle.joined_module.specs.Fits.{source_within, sources_within, option_within, operand_within, row_within, is_fork_source};
ghost use Rattle.joined_module.specs.Fits.{takes_fork, is_kept_operand, row_takes_fork, looks_somewhere, row_sound, each_within};
ghost use Rattle.joined_data.specs.Views.{origin_view, origin_if, operand_if, row_view, site_view};
ghost use Rattle.joined_fields.specs.Views.{widths_view};
ghost use Rattle.joined_fits.specs.Parts.{lists_within, opened_within, operands_within, operands_take, words_there, one_second};
ghost use Rattle.joined_fits.specs.Parts.{answers_taken};

use joined_data::{
    Flag, Operand, Origin, Row, Side, Site, flagged, input_operand, opened_boxes, row_looks,
};
use joined_fields::Widths;

/// An origin is one of those that are declared.
fn source_within(w: &Widths, origin: Origin) -> bool
    ensures { result ≡ source_within (widths_view w.now) (origin_view origin) }
{
    match origin {
        Origin::Sig(i) => u64::from(i) < w.sigs,
        Origin::Boxed(i) => u64::from(i) < w.boxes,
        Origin::Fork(i) => u64::from(i) < w.saved,
        Origin::Word(i) => u64::from(i) < w.words,
        Origin::SigPart(_) => 0 < w.sigs,
        Origin::BoxPart(_) => 0 < w.boxes,
        _ => true,
    }
}

/// Each of these is.
fn sources_within(w: &Widths, list: &[Origin]) -> bool
    ensures { result ≡ sources_within (widths_view w.now) (map origin_view list.now) }
{
    match list {
        [] => true,
        [first, rest @ ..] => source_within(w, *first) && sources_within(w, rest),
    }
}

/// One is, if there is one.
fn option_within(w: &Widths, origin: Option<Origin>) -> bool
    ensures { result ≡ option_within (widths_view w.now) (origin_if origin) }
{
    match origin {
        None => true,
        Some(origin) => source_within(w, origin),
    }
}

/// A port is one of so many, and each number has 64 bits.
#[tactic(auto, using(crate::proofs::Literals::literal_within))]
fn operand_within(ports: u64, operand: Option<Operand>) -> bool
    ensures { result ≡ operand_within ports (operand_if operand) }
{
    match operand {
        Some(Operand::Port(i)) => u64::from(i) < ports,
        _ => true,
    }
}

/// What a row's lists name is there.
fn lists_within(w: &Widths, row: &Row) -> bool
    ensures { result ≡ lists_within (widths_view w.now) (row_view row.now) }
{
    sources_within(w, row.sigs) && sources_within(w, row.boxes)
}

/// What its words and its fork's boxes name.
fn opened_within(w: &Widths, row: &Row) -> bool
    ensures { result ≡ opened_within (widths_view w.now) (row_view row.now) }
{
    sources_within(w, row.words) && sources_within(w, opened_boxes(row.fork))
}

/// What its operands name.
fn operands_within(ports: u64, row: &Row) -> bool
    ensures { result ≡ operands_within ports (row_view row.now) }
{
    operand_within(ports, input_operand(Side::First, row))
        && operand_within(ports, input_operand(Side::Second, row))
}

/// All that a row names is there.
fn row_within(w: &Widths, ports: u64, row: &Row) -> bool
    ensures { result ≡ row_within (widths_view w.now) ports (row_view row.now) }
{
    lists_within(w, row)
        && (opened_within(w, row)
            && (option_within(w, row_looks(row))
                && (operands_within(ports, row) && row.moves < 256)))
}

/// An origin is of the innermost fork.
fn is_fork_source(origin: Origin) -> bool
    ensures { result ≡ is_fork_source (origin_view origin) }
{
    match origin {
        Origin::Fork(_) => true,
        _ => false,
    }
}

/// One of these is.
fn takes_fork(list: &[Origin]) -> bool
    ensures { result ≡ takes_fork (map origin_view list.now) }
{
    match list {
        [] => false,
        [first, rest @ ..] => is_fork_source(*first) || takes_fork(rest),
    }
}

/// An operand is the innermost fork's.
fn is_kept_operand(operand: Option<Operand>) -> bool
    ensures { result ≡ is_kept_operand (operand_if operand) }
{
    match operand {
        Some(Operand::Kept) => true,
        _ => false,
    }
}

/// An operand of a row is.
fn operands_take(row: &Row) -> bool
    ensures { result ≡ operands_take (row_view row.now) }
{
    is_kept_operand(input_operand(Side::First, row))
        || is_kept_operand(input_operand(Side::Second, row))
}

/// A row takes something of the innermost fork.
fn row_takes_fork(row: &Row) -> bool
    ensures { result ≡ row_takes_fork (row_view row.now) }
{
    takes_fork(row.sigs)
        || (takes_fork(row.boxes)
            || (takes_fork(row.words)
                || (takes_fork(opened_boxes(row.fork)) || operands_take(row))))
}

/// A cell is looked at.
fn has_cell(site: Site) -> bool
    ensures { result ≡ has_cell (site_view site) }
{
    match site {
        Site::OnSigs | Site::OnBoxes => true,
        _ => false,
    }
}

/// What is looked at is there.
fn looks_somewhere(row: &Row) -> bool
    ensures { result ≡ looks_somewhere (row_view row.now) }
{
    !has_cell(row.site) || row_looks(row).is_some()
}

/// A new cell has as many words as are read.
fn words_there(w: &Widths, row: &Row) -> bool
    ensures { result ≡ words_there (widths_view w.now) (row_view row.now) }
{
    !row.makes || w.words <= row.words.len() as u64
}

/// A number and a kept answer aren't in one row.
fn one_second(row: &Row) -> bool
    ensures { result ≡ one_second (row_view row.now) }
{
    !(flagged(Flag::Computes, row) && flagged(Flag::Keeps, row))
}

/// Only a row that answers a fork takes anything of it.
fn answers_taken(row: &Row) -> bool
    ensures { result ≡ answers_taken (row_view row.now) }
{
    !row_takes_fork(row) || flagged(Flag::Touches, row)
}

/// What a row makes is there.
fn row_sound(w: &Widths, row: &Row) -> bool
    ensures { result ≡ row_sound (widths_view w.now) (row_view row.now) }
{
    words_there(w, row) && (one_second(row) && (answers_taken(row) && looks_somewhere(row)))
}

/// All of this holds of each row.
pub(crate) fn each_within(w: &Widths, ports: u64, rows: &[Row]) -> bool
    ensures { result ≡ each_within (widths_view w.now) ports (map row_view rows.now) }
{
    match rows {
        [] => true,
        [first, rest @ ..] => {
            (row_within(w, ports, first) && row_sound(w, first)) && each_within(w, ports, rest)
        }
    }
}
