//! Parts of the module of joined rows that are the same for all tables.
//!
//! Each is a static, written with the macros below as its definition is, and is proved to be its part of the definition. `put_statement`
//! and the like put what differs into an arena that the caller gives, and `add_item` appends it.
#![tactic(auto)]

/// A vector, whole.
macro_rules! name {
    ($x:literal) => { verilog_tree::Expression::Name($x) };
}

/// A number.
macro_rules! num {
    ($n:literal) => { verilog_tree::Expression::Number($n) };
}

/// A number of so many bits.
macro_rules! sized {
    ($bits:literal, $n:literal) => { verilog_tree::Expression::Sized($bits, $n) };
}

/// A bit of a vector.
macro_rules! bit {
    ($x:literal, $n:literal) => { verilog_tree::Expression::Bit($x, &num!($n)) };
}

/// A vector's bits from one down to another.
macro_rules! part {
    ($x:literal, $high:literal, $low:literal) => {
        verilog_tree::Expression::Part($x, verilog_tree::Extent::Count($high), verilog_tree::Extent::Count($low))
    };
}

/// One behind the other.
macro_rules! cat {
    ($a:expr) => { $a };
    ($a:expr, $($more:expr),+) => { verilog_tree::Expression::Cat(&$a, &cat!($($more),+)) };
}

/// A sum.
macro_rules! plus {
    ($a:expr, $b:expr) => { verilog_tree::Expression::Two(verilog_tree::Operation::Plus, &$a, &$b) };
}

/// All of these.
macro_rules! both {
    ($a:expr) => { $a };
    ($a:expr, $($more:expr),+) => { verilog_tree::Expression::Logic(verilog_tree::Connective::Both, &$a, &both!($($more),+)) };
}

/// One of these.
macro_rules! either {
    ($a:expr) => { $a };
    ($a:expr, $($more:expr),+) => { verilog_tree::Expression::Logic(verilog_tree::Connective::OneOf, &$a, &either!($($more),+)) };
}

/// Not this.
macro_rules! not {
    ($a:expr) => { verilog_tree::Expression::Not(&$a) };
}

/// One or the other.
macro_rules! pick {
    ($c:expr, $a:expr, $b:expr) => { verilog_tree::Expression::Pick(&$c, &$a, &$b) };
}

/// x = e
macro_rules! set {
    ($x:literal, $e:expr) => { verilog_tree::Statement::Put(verilog_tree::Place::Whole($x), $e) };
}

/// One statement after the other.
macro_rules! block {
    ($s:expr) => { $s };
    ($s:expr, $($more:expr),+) => { verilog_tree::Statement::Seq(&$s, &block!($($more),+)) };
}

/// One statement or the other, or none.
macro_rules! branch {
    ($e:expr, $s:expr) => { branch!($e, $s, verilog_tree::Statement::Skip) };
    ($e:expr, $s:expr, $t:expr) => { verilog_tree::Statement::Branch($e, &$s, &$t) };
}

/// A register of one bit, or from this bit down to 0.
macro_rules! reg {
    ($x:literal) => { verilog_tree::Item::Reg(verilog_tree::Range::One, $x) };
    ($high:literal, $x:literal) => { verilog_tree::Item::Reg(verilog_tree::Range::UpTo(verilog_tree::Extent::Count($high)), $x) };
}

/// A wire of one bit, or from this bit down to 0.
macro_rules! wire {
    ($x:literal, $e:expr) => { verilog_tree::Item::Wire(verilog_tree::Range::One, $x, $e) };
    ($high:literal, $x:literal, $e:expr) => {
        verilog_tree::Item::Wire(verilog_tree::Range::UpTo(verilog_tree::Extent::Count($high)), $x, $e)
    };
}

mod arena;
mod conditions;
mod notes;
mod rests;
mod steps;
mod unit;
mod unit_clock;

pub use arena::{
    add_item, put_all, put_arms, put_branch, put_cat, put_expression, put_name, put_pick, put_seq,
    put_set, put_sized, put_statement, put_zeroed,
};
pub use conditions::{
    acts, base, base_expression, fetches, keeps_at_expression, makes, next_top_expression,
    opens_now, reads_fork_expression, resets, saved_top, saved_top_expression,
};
pub use notes::{
    add_cells_said, add_clock_said, add_find_said, add_forks_said, add_less, add_lists_said,
    add_numbers_said, add_place_said, add_ports, add_ports_said, add_read_said, add_store_rest,
};
pub use rests::{add_count_wires, add_rest_flags};
pub use steps::{
    count_statement, done_statement, end_statement, fork_rest, full_statement, nothing, read_fork,
    top_statement, value_statement, zero_statement,
};
pub use unit::{add_unit, add_unit_wires};
pub use unit_clock::unit_statement;
