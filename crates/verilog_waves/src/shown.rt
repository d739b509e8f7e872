//! Which names of a module are shown, and their lines at the head of a dump.

ghost use Rattle.std.specs.Prelude.{◌≡◌, ◌++◌, List, [], ◌∷◌, length, map, codes, decimal, ◌+◌, IfOk, OnOk};
ghost use Rattle.verilog_tree.specs.Tree as tree;
ghost use Rattle.verilog_tree.specs.Meaning.{scope};
ghost use Rattle.verilog_tree.specs.Names.{text_of};
ghost use Rattle.verilog_tree.specs.Views.{item_of};
ghost use Rattle.verilog_run.specs.Scopes.{scope_of};
ghost use Rattle.verilog_waves.specs.Dump.{code, head_text, name_line, name_lines};
ghost use Rattle.verilog_waves.specs.Shown.{shown, shown_in};
ghost use Rattle.verilog_waves.specs.Views.{shown_of, word_of};

use crate::words::{push_code, push_name, push_number, push_range};
use std::alloc::{AllocError, Global};
use verilog_run::Scene;
use verilog_tree::Item;

/// What a name is.
#[derive(Clone, Copy)]
pub(crate) enum Kind {
    /// An input, or a wire.
    Wire,
    /// An output, or a register.
    Reg,
}

/// A name that is shown: its place among them, what it is, how many bits it has.
#[derive(Clone, Copy)]
pub(crate) struct Shown<'a> {
    pub(crate) place: usize,
    pub(crate) kind: Kind,
    pub(crate) bits: usize,
    pub(crate) name: &'a [u8],
}

/// Puts a name behind the others.
fn add<'a>(
    list: &mut Vec<Shown<'a>>,
    kind: Kind,
    bits: usize,
    name: &'a [u8],
) -> Result<(), AllocError>
    ensures items { OnOk result (map shown_of list.new.items ≡ map shown_of list.old.items ++ record {
      place = length list.old.items;
      kind = word_of kind;
      bits = bits;
      name = text_of name.now;
    } ∷ []) }
    ensures count { OnOk result (length list.new.items ≡ length list.old.items + 1) }
{
    let place = list.len();
    list.push(Shown {
        place,
        kind,
        bits,
        name,
    })?;
    Ok(())
}

/// Puts the name that an item declares behind the others, where it is shown.
fn add_item<'a>(list: &mut Vec<Shown<'a>>, scene: &Scene, item: &Item<'a>) -> Result<(), AllocError>
    ensures { OnOk result ((is : List tree.Item) →
        map shown_of list.new.items ++ shown_in (scope_of scene.now).param (length list.new.items) is
        ≡ map shown_of list.old.items ++ shown_in (scope_of scene.now).param (length list.old.items) (item_of item.now ∷ is)) }
{
    match item {
        Item::Input(range, name) => add(list, Kind::Wire, scene.range_bits(range)?, name),
        Item::Output(range, name) => add(list, Kind::Reg, scene.range_bits(range)?, name),
        Item::Reg(range, name) => add(list, Kind::Reg, scene.range_bits(range)?, name),
        Item::Wire(range, name, _) => add(list, Kind::Wire, scene.range_bits(range)?, name),
        _ => Ok(()),
    }
}

/// The names of a module that are shown.
pub(crate) fn shown_names<'a>(
    alloc: Global,
    scene: &Scene,
    items: &'a [Item<'a>],
) -> Result<Vec<Shown<'a>>, AllocError>
    requires { scope_of scene.now ≡ scope (map item_of items.now) }
    ensures { IfOk result (λ list. map shown_of list.items ≡ shown (map item_of items.now)) }
{
    let mut list = Vec::new(alloc);
    for item in items {
        add_item(&mut list, scene, item)?;
    }
    Ok(list)
}

/// The word for what a name is.
fn word(kind: Kind) -> &'static [u8]
    ensures { result.now ≡ codes (word_of kind) }
{
    match kind {
        Kind::Wire => b"wire",
        Kind::Reg => b"reg",
    }
}

/// Appends what stands in front of a name.
fn push_front(text: &mut Vec<u8>, v: &Shown<'_>) -> Result<(), AllocError>
    ensures { OnOk result (text.new.items ≡ text.old.items ++ (codes "$var " ++ (codes (word_of v.now.kind) ++ (codes " "
        ++ (decimal v.now.bits ++ (codes " " ++ (code v.now.place ++ codes " "))))))) }
{
    text.extend_from_slice(b"$var ")?;
    text.extend_from_slice(word(v.kind))?;
    text.extend_from_slice(b" ")?;
    push_number(text, v.bits as u128)?;
    text.extend_from_slice(b" ")?;
    push_code(text, v.place)?;
    text.extend_from_slice(b" ")
}

/// Appends the line of a name.
fn push_name_line(text: &mut Vec<u8>, v: &Shown<'_>) -> Result<(), AllocError>
    ensures { OnOk result (text.new.items ≡ text.old.items ++ name_line (shown_of v.now)) }
{
    push_front(text, v)?;
    push_name(text, v.name)?;
    push_range(text, v.bits)?;
    text.extend_from_slice(b" $end\n")
}

/// Appends the lines of all names.
fn push_name_lines(text: &mut Vec<u8>, names: &[Shown<'_>]) -> Result<(), AllocError>
    ensures { OnOk result (text.new.items ≡ text.old.items ++ name_lines (map shown_of names.now)) }
{
    for v in names {
        push_name_line(text, v)?;
    }
    Ok(())
}

/// Appends the head of a dump, for a module of this name.
pub(crate) fn push_head(
    text: &mut Vec<u8>,
    name: &[u8],
    names: &[Shown<'_>],
) -> Result<(), AllocError>
    ensures { OnOk result (text.new.items ≡ text.old.items ++ head_text (text_of name.now) (map shown_of names.now)) }
{
    text.extend_from_slice(b"$timescale 1 ns $end\n$scope module ")?;
    push_name(text, name)?;
    text.extend_from_slice(b" $end\n")?;
    push_name_lines(text, names)?;
    text.extend_from_slice(b"$upscope $end\n$enddefinitions $end\n")?;
    Ok(())
}
