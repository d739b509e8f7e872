//! The text of statements.

ghost use Rattle.std.specs.Prelude.{◌≡◌, ◌++◌, OnOk, codes, map, suc, false};
ghost use Rattle.verilog_tree.specs.Print.{straight};
ghost use Rattle.verilog_tree.specs.Print.{indent, expr_text, more_labels, labels_text};
ghost use Rattle.verilog_tree.specs.Print.{part_text, parts_text, said_text, flat_text};
ghost use Rattle.verilog_tree.specs.Print.{put_text, arm_block, arm_text};
ghost use Rattle.verilog_tree.specs.Print.{is_skip, else_text, stmt_text, arms_text};
ghost use Rattle.verilog_tree.specs.Views.{expr_of, target_of, said_of, stmt_of, arms_of, levels_of};

use crate::print::{push_expression, push_name, push_number, push_put};
use crate::tree::{Cases, Expression, Margin, Place, Remark, Statement};
use std::alloc::AllocError;

/// Appends the start of a line.
pub(crate) fn push_indent(text: &mut Vec<u8>, margin: &Margin) -> Result<(), AllocError>
    ensures { OnOk result (text.new.items ≡ text.old.items ++ indent (levels_of margin.now)) }
{
    match margin {
        Margin::Edge => Ok(()),
        Margin::Within(outer) => {
            text.extend_from_slice(b"  ")?;
            push_indent(text, outer)
        }
    }
}

/// Appends labels behind the first.
fn push_more_labels(text: &mut Vec<u8>, labels: &[Expression]) -> Result<(), AllocError>
    ensures { OnOk result (text.new.items ≡ text.old.items ++ more_labels (map expr_of labels.now)) }
{
    for label in labels {
        text.extend_from_slice(b", ")?;
        push_expression(text, false, label)?;
    }
    Ok(())
}

/// Appends the labels of an arm.
fn push_labels(text: &mut Vec<u8>, labels: &[Expression]) -> Result<(), AllocError>
    ensures { OnOk result (text.new.items ≡ text.old.items ++ labels_text (map expr_of labels.now)) }
{
    match labels {
        [] => Ok(()),
        [first, rest @ ..] => {
            push_expression(text, false, first)?;
            push_more_labels(text, rest)
        }
    }
}

/// Appends a part of what is said.
fn push_remark(text: &mut Vec<u8>, remark: &Remark) -> Result<(), AllocError>
    ensures { OnOk result (text.new.items ≡ text.old.items ++ part_text (said_of remark.now)) }
{
    match remark {
        Remark::Word(s) => push_name(text, s),
        Remark::Figure(n) => push_number(text, *n),
    }
}

/// Appends parts of what is said.
fn push_remarks(text: &mut Vec<u8>, said: &[Remark]) -> Result<(), AllocError>
    ensures { OnOk result (text.new.items ≡ text.old.items ++ parts_text (map said_of said.now)) }
{
    for remark in said {
        push_remark(text, remark)?;
    }
    Ok(())
}

/// Appends what is said of an arm, and ends the line.
fn push_said(text: &mut Vec<u8>, said: &[Remark]) -> Result<(), AllocError>
    ensures { OnOk result (text.new.items ≡ text.old.items ++ said_text (map said_of said.now)) }
{
    match said {
        [] => text.extend_from_slice(b"\n"),
        [first, rest @ ..] => {
            text.extend_from_slice(b"  // ")?;
            push_remark(text, first)?;
            push_remarks(text, rest)?;
            text.extend_from_slice(b"\n")
        }
    }
}

/// Whether a statement only sets whole vectors.
fn is_straight(s: &Statement) -> bool
    ensures { result ≡ straight (stmt_of s.now) }
{
    match s {
        Statement::Skip => true,
        Statement::Put(Place::Whole(_), _) => true,
        Statement::Seq(a, b) => is_straight(a) && is_straight(b),
        _ => false,
    }
}

/// Whether a statement is nothing at all.
fn is_skip(s: &Statement) -> bool
    ensures { result ≡ is_skip (stmt_of s.now) }
{
    match s {
        Statement::Skip => true,
        _ => false,
    }
}

/// Appends assignments on one line.
fn push_flat(text: &mut Vec<u8>, sign: &[u8], s: &Statement) -> Result<(), AllocError>
    ensures { OnOk result (text.new.items ≡ text.old.items ++ flat_text sign.now (stmt_of s.now)) }
{
    match s {
        Statement::Put(place, e) => {
            push_put(text, sign, place, e)?;
            text.extend_from_slice(b" ")
        }
        Statement::Seq(a, b) => {
            push_flat(text, sign, a)?;
            push_flat(text, sign, b)
        }
        _ => Ok(()),
    }
}

/// Appends the block of an arm on one line.
fn push_flat_block(
    text: &mut Vec<u8>,
    sign: &[u8],
    said: &[Remark],
    s: &Statement,
) -> Result<(), AllocError>
    ensures { OnOk result (text.new.items ≡ text.old.items
        ++ (codes ": begin " ++ (flat_text sign.now (stmt_of s.now) ++ (codes "end" ++ said_text (map said_of said.now))))) }
{
    text.extend_from_slice(b": begin ")?;
    push_flat(text, sign, s)?;
    text.extend_from_slice(b"end")?;
    push_said(text, said)
}

/// Appends the block of an arm on lines of its own.
#[cycle(statement)]
fn push_long_block(
    text: &mut Vec<u8>,
    sign: &[u8],
    margin: &Margin,
    said: &[Remark],
    s: &Statement,
) -> Result<(), AllocError>
    ensures { OnOk result (text.new.items ≡ text.old.items ++ (codes ": begin" ++ (said_text (map said_of said.now)
        ++ (stmt_text sign.now (suc (levels_of margin.now)) (stmt_of s.now) ++ (indent (levels_of margin.now) ++ codes "end\n"))))) }
{
    text.extend_from_slice(b": begin")?;
    push_said(text, said)?;
    push_statement(text, sign, &Margin::Within(&*margin), s)?;
    push_indent(text, margin)?;
    text.extend_from_slice(b"end\n")
}

/// Appends the block of an arm.
#[cycle(statement)]
fn push_block(
    text: &mut Vec<u8>,
    sign: &[u8],
    margin: &Margin,
    said: &[Remark],
    s: &Statement,
) -> Result<(), AllocError>
    ensures { OnOk result (text.new.items ≡ text.old.items
        ++ arm_block (straight (stmt_of s.now)) (flat_text sign.now (stmt_of s.now)) (levels_of margin.now) (map said_of said.now)
        (stmt_text sign.now (suc (levels_of margin.now)) (stmt_of s.now))) }
{
    if is_straight(s) {
        push_flat_block(text, sign, said, s)
    } else {
        push_long_block(text, sign, margin, said, s)
    }
}

/// Appends an arm with its labels, with this sign of assignment.
#[cycle(statement)]
fn push_arm(
    text: &mut Vec<u8>,
    sign: &[u8],
    margin: &Margin,
    labels: &[Expression],
    said: &[Remark],
    s: &Statement,
) -> Result<(), AllocError>
    ensures { OnOk result (text.new.items ≡ text.old.items
        ++ arm_text sign.now (levels_of margin.now) (map expr_of labels.now) (stmt_of s.now) (map said_of said.now)
        (stmt_text sign.now (suc (levels_of margin.now)) (stmt_of s.now))) }
{
    push_indent(text, margin)?;
    push_labels(text, labels)?;
    push_block(text, sign, margin, said, s)
}

/// Appends the arms of a case.
#[cycle(statement)]
fn push_arms(
    text: &mut Vec<u8>,
    sign: &[u8],
    margin: &Margin,
    arms: &Cases,
) -> Result<(), AllocError>
    ensures { OnOk result (text.new.items ≡ text.old.items ++ arms_text sign.now (levels_of margin.now) (arms_of arms.now)) }
{
    match arms {
        Cases::Otherwise(s) => {
            push_indent(text, margin)?;
            text.extend_from_slice(b"default")?;
            push_block(text, sign, margin, &[], s)
        }
        Cases::Arm(labels, s, said, rest) => {
            push_arm(text, sign, margin, labels, said, s)?;
            push_arms(text, sign, margin, rest)
        }
    }
}

/// Appends the end of a branch: what is done where its test doesn't hold.
#[cycle(statement)]
fn push_else(
    text: &mut Vec<u8>,
    sign: &[u8],
    margin: &Margin,
    s: &Statement,
) -> Result<(), AllocError>
    ensures { OnOk result (text.new.items ≡ text.old.items ++ else_text (is_skip (stmt_of s.now)) (levels_of margin.now)
        (stmt_text sign.now (suc (levels_of margin.now)) (stmt_of s.now))) }
{
    if is_skip(s) {
        return text.extend_from_slice(b"end\n");
    }
    text.extend_from_slice(b"end else begin\n")?;
    push_statement(text, sign, &Margin::Within(&*margin), s)?;
    push_indent(text, margin)?;
    text.extend_from_slice(b"end\n")
}

/// Appends a branch.
#[cycle(statement)]
fn push_branch(
    text: &mut Vec<u8>,
    sign: &[u8],
    margin: &Margin,
    e: &Expression,
    s: &Statement,
    t: &Statement,
) -> Result<(), AllocError>
    ensures { OnOk result (text.new.items ≡ text.old.items ++ (indent (levels_of margin.now) ++ (codes "if ("
        ++ (expr_text false (expr_of e.now) ++ (codes ") begin\n" ++ (stmt_text sign.now (suc (levels_of margin.now)) (stmt_of s.now)
        ++ (indent (levels_of margin.now) ++ else_text (is_skip (stmt_of t.now)) (levels_of margin.now)
        (stmt_text sign.now (suc (levels_of margin.now)) (stmt_of t.now))))))))) }
{
    push_indent(text, margin)?;
    text.extend_from_slice(b"if (")?;
    push_expression(text, false, e)?;
    text.extend_from_slice(b") begin\n")?;
    push_statement(text, sign, &Margin::Within(&*margin), s)?;
    push_indent(text, margin)?;
    push_else(text, sign, margin, t)
}

/// Appends a case.
#[cycle(statement)]
fn push_case(
    text: &mut Vec<u8>,
    sign: &[u8],
    margin: &Margin,
    e: &Expression,
    arms: &Cases,
) -> Result<(), AllocError>
    ensures { OnOk result (text.new.items ≡ text.old.items ++ (indent (levels_of margin.now) ++ (codes "case ("
        ++ (expr_text false (expr_of e.now) ++ (codes ")\n" ++ (arms_text sign.now (suc (levels_of margin.now)) (arms_of arms.now)
        ++ (indent (levels_of margin.now) ++ codes "endcase\n"))))))) }
{
    push_indent(text, margin)?;
    text.extend_from_slice(b"case (")?;
    push_expression(text, false, e)?;
    text.extend_from_slice(b")\n")?;
    push_arms(text, sign, &Margin::Within(&*margin), arms)?;
    push_indent(text, margin)?;
    text.extend_from_slice(b"endcase\n")
}

/// Appends an assignment on a line of its own.
fn push_line(
    text: &mut Vec<u8>,
    sign: &[u8],
    margin: &Margin,
    place: &Place,
    e: &Expression,
) -> Result<(), AllocError>
    ensures { OnOk result (text.new.items ≡ text.old.items
        ++ (indent (levels_of margin.now) ++ (put_text sign.now (target_of place.now) (expr_of e.now) ++ codes "\n"))) }
{
    push_indent(text, margin)?;
    push_put(text, sign, place, e)?;
    text.extend_from_slice(b"\n")
}

/// Appends a statement, with this sign of assignment.
#[cycle(statement)]
pub(crate) fn push_statement(
    text: &mut Vec<u8>,
    sign: &[u8],
    margin: &Margin,
    s: &Statement,
) -> Result<(), AllocError>
    ensures { OnOk result (text.new.items ≡ text.old.items ++ stmt_text sign.now (levels_of margin.now) (stmt_of s.now)) }
{
    match s {
        Statement::Skip => Ok(()),
        Statement::Put(place, e) => push_line(text, sign, margin, place, e),
        Statement::Seq(a, b) => {
            push_statement(text, sign, margin, a)?;
            push_statement(text, sign, margin, b)
        }
        Statement::Branch(e, a, b) => push_branch(text, sign, margin, e, a, b),
        Statement::Case(e, arms) => push_case(text, sign, margin, e, arms),
    }
}
