//! What a module declares, looked up once before it runs.

ghost use Rattle.std.specs.Prelude.{◌≡◌, ℕ, suc, List, ◌∷◌, map, [], IfOk, IfSome, IfNone, OnOk};
ghost use Rattle.verilog_tree.specs.Tree as tree;
ghost use Rattle.verilog_tree.specs.Meaning.{param_in, width_in, words_in, width_of as bits_of, amount as amount_of, named_here, scope};
ghost use Rattle.verilog_tree.specs.Names.{text_of};
ghost use Rattle.verilog_tree.specs.Views.{item_of, size_of, width_of};
ghost use Rattle.verilog_run.specs.Entries.{rows, Name};
ghost use Rattle.verilog_run.specs.Scopes.{scope_of, told, Tells};

use crate::table::{Table, number, put_at};
use std::alloc::{AllocError, Global};
use verilog_tree::{Extent, Item, Range};
use wide_numbers::Number;

/// What a module declares: how wide its names are, how many words its memories have, and the numbers of its parameters.
#[derive(Drop)]
pub struct Scene {
    pub(crate) alloc: Global,
    widths: Table,
    words: Table,
    params: Table,
}

/// What a constant expression comes to.
fn amount(alloc: Global, params: &Table, extent: &Extent<'_>) -> Result<Number, AllocError>
    ensures { IfOk result (λ n. n ≡ amount_of (told (rows params.now)) (size_of extent.now)) }
{
    match extent {
        Extent::Count(n) => Number::of(alloc, *n as u128),
        Extent::Named(x) => number(alloc, params, x),
        Extent::More(a, b) => {
            let x = amount(alloc, params, a)?;
            let y = amount(alloc, params, b)?;
            x.plus(alloc, &y)
        }
        Extent::Less(a, b) => {
            let x = amount(alloc, params, a)?;
            let y = amount(alloc, params, b)?;
            x.minus(alloc, &y)
        }
    }
}

/// One more.
fn next(alloc: Global, n: &Number) -> Result<Number, AllocError>
    ensures { IfOk result (λ m. m ≡ suc n.now) }
{
    let one = Number::of(alloc, 1)?;
    n.plus(alloc, &one)
}

/// How many bits are declared.
fn range_width(alloc: Global, params: &Table, range: &Range<'_>) -> Result<Number, AllocError>
    ensures { IfOk result (λ n. n ≡ bits_of (told (rows params.now)) (width_of range.now)) }
{
    match range {
        Range::One => Number::of(alloc, 1),
        Range::UpTo(h) => {
            let n = amount(alloc, params, h)?;
            next(alloc, &n)
        }
        Range::Wide(k) => amount(alloc, params, k),
    }
}

/// Notes the number of a name.
fn note(alloc: Global, table: &mut Table, name: &[u8], number: Number) -> Result<(), AllocError>
    ensures { OnOk result ((x : Name) → told (rows table.new) x ≡ named_here (text_of name.now) x number (told (rows table.old) x)) }
{
    put_at(alloc, table, name, 0, number)?;
    Ok(())
}

/// The parameter that an item declares, if it does.
fn param_of<'a>(item: &Item<'a>) -> Option<(&'a [u8], u128)>
    ensures some { IfSome result (λ d. (is : List tree.Item) (x : Name) →
        param_in (item_of item.now ∷ is) x ≡ named_here (text_of d.0.now) x d.1 (param_in is x)) }
    ensures none { IfNone result ((is : List tree.Item) (x : Name) → param_in (item_of item.now ∷ is) x ≡ param_in is x) }
{
    match item {
        Item::Size(x, n) => Some((*x, *n as u128)),
        Item::Constant(_, x, n) => Some((*x, *n)),
        _ => None,
    }
}

/// The name that an item declares, if it does, and its range. A size has 32 bits.
fn range_of<'a>(item: &Item<'a>) -> Option<(&'a [u8], Range<'a>)>
    ensures some { IfSome result (λ d. (p : Name → ℕ) (is : List tree.Item) (x : Name) →
        width_in p (item_of item.now ∷ is) x ≡ named_here (text_of d.0.now) x (bits_of p (width_of d.1)) (width_in p is x)) }
    ensures none { IfNone result ((p : Name → ℕ) (is : List tree.Item) (x : Name) →
        width_in p (item_of item.now ∷ is) x ≡ width_in p is x) }
{
    match item {
        Item::Size(x, _) => Some((*x, Range::Wide(Extent::Count(32)))),
        Item::Constant(w, x, _) => Some((*x, *w)),
        Item::Input(w, x) => Some((*x, *w)),
        Item::Output(w, x) => Some((*x, *w)),
        Item::Reg(w, x) => Some((*x, *w)),
        Item::Memory(w, x, _) => Some((*x, *w)),
        Item::Wire(w, x, _) => Some((*x, *w)),
        Item::Note(_) => None,
        Item::Gap => None,
        Item::Settles(_) => None,
        Item::Clocked(_) => None,
    }
}

/// The memory that an item declares, if it does, and how many words it has.
fn memory_of<'a>(item: &Item<'a>) -> Option<(&'a [u8], Extent<'a>)>
    ensures some { IfSome result (λ d. (p : Name → ℕ) (is : List tree.Item) (x : Name) →
        words_in p (item_of item.now ∷ is) x ≡ named_here (text_of d.0.now) x (amount_of p (size_of d.1)) (words_in p is x)) }
    ensures none { IfNone result ((p : Name → ℕ) (is : List tree.Item) (x : Name) →
        words_in p (item_of item.now ∷ is) x ≡ words_in p is x) }
{
    match item {
        Item::Memory(_, x, k) => Some((*x, *k)),
        _ => None,
    }
}

/// Notes the parameter that an item declares, if it does.
fn note_param(alloc: Global, table: &mut Table, item: &Item<'_>) -> Result<(), AllocError>
    ensures { OnOk result ((is : List tree.Item) → Tells (rows table.old) (param_in is) →
        Tells (rows table.new) (param_in (item_of item.now ∷ is))) }
{
    match param_of(item) {
        Some(d) => {
            let n = Number::of(alloc, d.1)?;
            note(alloc, table, d.0, n)?;
            Ok(())
        }
        None => Ok(()),
    }
}

/// Notes how many bits the name has that an item declares, if it does.
fn note_width(
    alloc: Global,
    table: &mut Table,
    params: &Table,
    item: &Item<'_>,
) -> Result<(), AllocError>
    ensures { OnOk result ((is : List tree.Item) → Tells (rows table.old) (width_in (told (rows params.now)) is) →
        Tells (rows table.new) (width_in (told (rows params.now)) (item_of item.now ∷ is))) }
{
    match range_of(item) {
        Some(d) => {
            let n = range_width(alloc, params, &d.1)?;
            note(alloc, table, d.0, n)?;
            Ok(())
        }
        None => Ok(()),
    }
}

/// Notes how many words the memory has that an item declares, if it does.
fn note_words(
    alloc: Global,
    table: &mut Table,
    params: &Table,
    item: &Item<'_>,
) -> Result<(), AllocError>
    ensures { OnOk result ((is : List tree.Item) → Tells (rows table.old) (words_in (told (rows params.now)) is) →
        Tells (rows table.new) (words_in (told (rows params.now)) (item_of item.now ∷ is))) }
{
    match memory_of(item) {
        Some(d) => {
            let n = amount(alloc, params, &d.1)?;
            note(alloc, table, d.0, n)?;
            Ok(())
        }
        None => Ok(()),
    }
}

/// Notes all parameters, from the last to the first, so that the first of a name counts.
fn note_params(alloc: Global, table: &mut Table, items: &[Item<'_>]) -> Result<(), AllocError>
    requires { rows table.old ≡ [] }
    ensures { OnOk result (Tells (rows table.new) (param_in (map item_of items.now))) }
{
    let mut i = items.len();
    while i > 0 {
        i -= 1;
        note_param(alloc, table, &items[i])?;
    }
    Ok(())
}

/// Notes all widths, in the same order.
fn note_widths(
    alloc: Global,
    table: &mut Table,
    params: &Table,
    items: &[Item<'_>],
) -> Result<(), AllocError>
    requires { rows table.old ≡ [] }
    ensures { OnOk result (Tells (rows table.new) (width_in (told (rows params.now)) (map item_of items.now))) }
{
    let mut i = items.len();
    while i > 0 {
        i -= 1;
        note_width(alloc, table, params, &items[i])?;
    }
    Ok(())
}

/// Notes how many words each memory has, in the same order.
fn note_all_words(
    alloc: Global,
    table: &mut Table,
    params: &Table,
    items: &[Item<'_>],
) -> Result<(), AllocError>
    requires { rows table.old ≡ [] }
    ensures { OnOk result (Tells (rows table.new) (words_in (told (rows params.now)) (map item_of items.now))) }
{
    let mut i = items.len();
    while i > 0 {
        i -= 1;
        note_words(alloc, table, params, &items[i])?;
    }
    Ok(())
}

/// The numbers of all parameters.
fn params_of(alloc: Global, items: &[Item<'_>]) -> Result<Table, AllocError>
    ensures { IfOk result (λ t. Tells (rows t) (param_in (map item_of items.now))) }
{
    let mut table = Table::new(alloc);
    note_params(alloc, &mut table, items)?;
    Ok(table)
}

/// All widths.
fn widths_of(alloc: Global, params: &Table, items: &[Item<'_>]) -> Result<Table, AllocError>
    ensures { IfOk result (λ t. Tells (rows t) (width_in (told (rows params.now)) (map item_of items.now))) }
{
    let mut table = Table::new(alloc);
    note_widths(alloc, &mut table, params, items)?;
    Ok(table)
}

/// How many words each memory has.
fn words_of(alloc: Global, params: &Table, items: &[Item<'_>]) -> Result<Table, AllocError>
    ensures { IfOk result (λ t. Tells (rows t) (words_in (told (rows params.now)) (map item_of items.now))) }
{
    let mut table = Table::new(alloc);
    note_all_words(alloc, &mut table, params, items)?;
    Ok(table)
}

impl Scene {
    /// What these items declare.
    ///
    /// # Errors
    ///
    /// Only where memory runs out.
    pub fn new(alloc: Global, items: &[Item<'_>]) -> Result<Scene, AllocError>
        ensures { IfOk result (λ s. scope_of s ≡ scope (map item_of items.now)) }
    {
        let params = params_of(alloc, items)?;
        let widths = widths_of(alloc, &params, items)?;
        let words = words_of(alloc, &params, items)?;
        Ok(Scene {
            alloc,
            widths,
            words,
            params,
        })
    }

    /// How many bits a range has.
    ///
    /// # Errors
    ///
    /// Only where memory runs out, as it does for a vector of 2^62 bits.
    pub fn range_bits(&self, range: &Range<'_>) -> Result<usize, AllocError>
        ensures { IfOk result (λ n. n ≡ bits_of (scope_of self.now).param (width_of range.now)) }
    {
        let n = range_width(self.alloc, &self.params, range)?;
        match n.within(1 << 62) {
            Some(bits) => Ok(bits),
            None => Err(AllocError),
        }
    }

    /// What a constant expression comes to.
    pub(crate) fn amount(&self, extent: &Extent<'_>) -> Result<Number, AllocError>
        ensures { IfOk result (λ n. n ≡ amount_of (scope_of self.now).param (size_of extent.now)) }
    {
        amount(self.alloc, &self.params, extent)
    }

    /// The number of a parameter.
    pub(crate) fn param(&self, name: &[u8]) -> Result<Number, AllocError>
        ensures { IfOk result (λ n. n ≡ (scope_of self.now).param (text_of name.now)) }
    {
        number(self.alloc, &self.params, name)
    }

    /// The width of a name.
    pub(crate) fn width(&self, name: &[u8]) -> Result<Number, AllocError>
        ensures { IfOk result (λ n. n ≡ (scope_of self.now).width (text_of name.now)) }
    {
        number(self.alloc, &self.widths, name)
    }

    /// How many words a memory has.
    pub(crate) fn words(&self, name: &[u8]) -> Result<Number, AllocError>
        ensures { IfOk result (λ n. n ≡ (scope_of self.now).words (text_of name.now)) }
    {
        number(self.alloc, &self.words, name)
    }
}
