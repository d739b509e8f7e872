//! The job that a list of words asks for, read off from what `clap` finds in them.

ghost use Rattle.std.specs.Prelude.{◌≡◌, ◌≢◌, ◌⊎◌, IfOk, IfErr, IsErrOf, None, Some, codes, false, [], map, option_map};
ghost use Rattle.std.specs.Prelude.{string_bytes};
ghost use Rattle.std.specs.List.{list_any};
ghost use Rattle.std.specs.Str.{bytes_eq};
ghost use Rattle.clap.specs.Words.{Text, fault_of, found_of, rows_of, subcommand_of, subcommand_rows_of};
ghost use Rattle.goi_words.specs.Commands.{all_go_with, batch_job, call_job, calling_in, check_job, circuit_asked, circuit_in};
ghost use Rattle.goi_words.specs.Commands.{circuit_job, demo_job, goes_with, goi_command, if_traced, name_in, net_job, replay_job};
ghost use Rattle.goi_words.specs.Commands.{run_job, run_net_job, span_job, steps_job, trace_job, uses, window_of};
ghost use Rattle.goi_words.specs.Asked.{AreUnfit, findings, is_from_words, is_given, is_set, is_taken, job, job_on, number_of};
ghost use Rattle.goi_words.specs.Asked.{numbers_of, text_of, wide_number_in, wide_numbers_in};
ghost use Rattle.goi_words.specs.Growing.{lent_tree};
ghost use Rattle.goi_jobs.specs.Jobs.{IsWithinLimits, job_of};
ghost use Rattle.goi_words.specs.declared.faults.WordFault.TheVariants.{NoMemory, Refused};

use crate::commands::goi_command;
use crate::faults::WordFault;
use clap::ArgMatches;
use clap::parser::ValueSource;
use goi_jobs::{Job, Shown, Task, Verilog, Window};
use pcf_values::Ident;
use program_runs::{Calling, calling_of};
use std::alloc::Global;
use verilog_names::is_module_name;

/// The job that the words ask for. The first word is the program's own name, whatever it is; no words at all are as the name alone.
/// The numbers of a job are in their ranges.
///
/// # Errors
///
/// `Refused` comes only when `clap`'s definition refuses the words, or what they ask of `circuit` is unfit: the name of its module is none,
/// or an option is given that has no use there. `NoMemory` comes when memory runs out.
pub fn job_of(alloc: Global, words: &[String]) -> Result<Job, WordFault>
    ensures ok { IfOk result (λ done. job (map string_bytes words.now) ≡ Some (job_of done)) }
    ensures within { IfOk result (λ done. IsWithinLimits (job_of done)) }
    ensures none { IsErrOf result Refused → job (map string_bytes words.now) ≡ None }
    ensures refused { IsErrOf result Refused
        → (is_taken (map string_bytes words.now) ≡ false) ⊎ AreUnfit (map string_bytes words.now) }
{
    let matches = parse(alloc, words)?;
    match matches.subcommand() {
        Some((name, found)) => job_on(alloc, name, found),
        None => Err(WordFault::Refused),
    }
}

/// What `clap` finds in the words.
fn parse<'a>(alloc: Global, words: &'a [String]) -> Result<ArgMatches<'a>, WordFault>
    ensures taken { IfOk result (λ m. fault_of goi_command (map string_bytes words.now) ≡ []) }
    ensures found { IfOk result (λ m. subcommand_rows_of m ≡ subcommand_of goi_command (map string_bytes words.now)) }
    ensures refused { IsErrOf result Refused → fault_of goi_command (map string_bytes words.now) ≢ [] }
{
    let command = goi_command(alloc)?;
    let matches = command.try_get_matches_from(words)?;
    Ok(matches)
}

/// The job of a subcommand, from what was found for its arguments.
fn job_on(alloc: Global, name: &str, found: &ArgMatches<'_>) -> Result<Job, WordFault>
    ensures ok { IfOk result (λ done. job_on name.now (rows_of (found_of found.now)) ≡ Some (job_of done)) }
    ensures refused { IsErrOf result Refused → job_on name.now (rows_of (found_of found.now)) ≡ None }
{
    if name == "call" {
        return call_job(alloc, found);
    }
    match lent_on(name, found) {
        Some(lent) => owned(alloc, lent),
        None => Err(WordFault::Refused),
    }
}

/// A job whose texts are lent by the words.
#[derive(Clone, Copy)]
enum Lent<'a> {
    /// A task on the text of a file, by so many workers.
    Text(&'a str, u32, Task),
    /// A replay: the files of the program and of the schedule, and the part of the trace.
    Replay(&'a str, &'a str, Option<Window>),
    /// The programs of a list, by so many workers.
    List(&'a str, u32),
    /// The program that is generated for a number, by so many workers.
    Demo(u32, u32),
    /// Verilog for the text of a file, with the name of a module.
    Verilog(&'a str, &'a str, Verilog),
}

/// The job with texts of its own.
fn owned(alloc: Global, lent: Lent<'_>) -> Result<Job, WordFault>
    ensures ok { IfOk result (λ done. job_of done ≡ lent_tree lent.entry) }
    ensures memory { IfErr result (λ f. f ≡ NoMemory) }
{
    match lent {
        Lent::Text(file, workers, task) => Ok(Job::Text {
            file: Ident::from_text(alloc, file)?,
            workers,
            task,
        }),
        Lent::Replay(file, schedule, window) => Ok(Job::Replay {
            file: Ident::from_text(alloc, file)?,
            schedule: Ident::from_text(alloc, schedule)?,
            window,
        }),
        Lent::List(file, workers) => Ok(Job::List {
            file: Ident::from_text(alloc, file)?,
            workers,
        }),
        Lent::Demo(n, workers) => Ok(Job::Demo { n, workers }),
        Lent::Verilog(file, name, verilog) => Ok(Job::Verilog {
            file: Ident::from_text(alloc, file)?,
            name: Ident::from_text(alloc, name)?,
            verilog,
        }),
    }
}

/// The job of a subcommand other than `call`.
fn lent_on<'a>(name: &str, found: &ArgMatches<'a>) -> Option<Lent<'a>>
    ensures { bytes_eq name.now (codes "call") ≡ false → option_map lent_tree result ≡ job_on name.now (rows_of (found_of found.now)) }
{
    match name {
        "run" => run_job(found),
        "check" => check_job(found),
        "net" => net_job(found),
        "replay" => replay_job(found),
        "demo" => demo_job(found),
        "run-net" => run_net_job(found),
        "batch" => batch_job(found),
        "trace" => trace_job(found),
        "circuit" => circuit_job(found),
        "span" => span_job(found),
        "steps" => steps_job(found),
        _ => None,
    }
}

/// The job of the words behind `run`.
fn run_job<'a>(found: &ArgMatches<'a>) -> Option<Lent<'a>>
    ensures { option_map lent_tree result ≡ run_job (findings (rows_of (found_of found.now))) }
{
    let file = text_of(found, "file")?;
    let workers = number_of(found, "workers")?;
    let budget = number_of(found, "budget")?;
    let task = Task::Run {
        budget,
        calling: calling_in(found),
        shown: Shown {
            schedule: is_set(found, "schedule"),
            tally: is_set(found, "tally"),
            progress: is_set(found, "progress"),
        },
    };
    Some(Lent::Text(file, workers, task))
}

/// The job of the words behind `check`.
fn check_job<'a>(found: &ArgMatches<'a>) -> Option<Lent<'a>>
    ensures { option_map lent_tree result ≡ check_job (findings (rows_of (found_of found.now))) }
{
    let file = text_of(found, "file")?;
    let term = is_set(found, "term");
    Some(Lent::Text(file, 1, Task::Check { term }))
}

/// The job of the words behind `net`.
fn net_job<'a>(found: &ArgMatches<'a>) -> Option<Lent<'a>>
    ensures { option_map lent_tree result ≡ net_job (findings (rows_of (found_of found.now))) }
{
    let file = text_of(found, "file")?;
    Some(Lent::Text(file, 1, Task::ShowNet))
}

/// The job of the words behind `replay`; a part of the trace that can't be is refused.
fn replay_job<'a>(found: &ArgMatches<'a>) -> Option<Lent<'a>>
    ensures { option_map lent_tree result ≡ replay_job (findings (rows_of (found_of found.now))) }
{
    let file = text_of(found, "file")?;
    let schedule = text_of(found, "schedule")?;
    let window = window_of(found)?;
    Some(Lent::Replay(file, schedule, if_traced(is_set(found, "trace"), window)))
}

/// The job of the words behind `demo`.
fn demo_job<'a>(found: &ArgMatches<'a>) -> Option<Lent<'a>>
    ensures { option_map lent_tree result ≡ demo_job (findings (rows_of (found_of found.now))) }
{
    let n = number_of(found, "n")?;
    let workers = number_of(found, "workers")?;
    Some(Lent::Demo(n, workers))
}

/// The job of the words behind `run-net`.
fn run_net_job<'a>(found: &ArgMatches<'a>) -> Option<Lent<'a>>
    ensures { option_map lent_tree result ≡ run_net_job (findings (rows_of (found_of found.now))) }
{
    let file = text_of(found, "file")?;
    let workers = number_of(found, "workers")?;
    let budget = number_of(found, "budget")?;
    let task = Task::RunNet {
        budget,
        shown: Shown {
            schedule: is_set(found, "schedule"),
            tally: is_set(found, "tally"),
            progress: false,
        },
    };
    Some(Lent::Text(file, workers, task))
}

/// The job of the words behind `batch`.
fn batch_job<'a>(found: &ArgMatches<'a>) -> Option<Lent<'a>>
    ensures { option_map lent_tree result ≡ batch_job (findings (rows_of (found_of found.now))) }
{
    let file = text_of(found, "file")?;
    let workers = number_of(found, "workers")?;
    Some(Lent::List(file, workers))
}

/// The job of the words behind `trace`; a part of the trace that can't be is refused.
fn trace_job<'a>(found: &ArgMatches<'a>) -> Option<Lent<'a>>
    ensures { option_map lent_tree result ≡ trace_job (findings (rows_of (found_of found.now))) }
{
    let file = text_of(found, "file")?;
    let workers = number_of(found, "workers")?;
    let budget = number_of(found, "budget")?;
    let window = window_of(found)?;
    let task = Task::Trace {
        budget,
        calling: calling_in(found),
        window,
    };
    Some(Lent::Text(file, workers, task))
}

/// The job of the words behind `circuit`; a name that is no module's is refused, and an option that what is asked for has no use for.
fn circuit_job<'a>(found: &ArgMatches<'a>) -> Option<Lent<'a>>
    ensures { option_map lent_tree result ≡ circuit_job (findings (rows_of (found_of found.now))) }
{
    let file = text_of(found, "file")?;
    let name = name_in(found)?;
    let asked = circuit_in(found)?;
    if all_go_with(found, asked) {
        Some(Lent::Verilog(file, name, asked))
    } else {
        None
    }
}

/// What is asked for of a circuit, with the numbers that were found.
fn circuit_in(found: &ArgMatches<'_>) -> Option<Verilog>
    ensures { result ≡ circuit_in (findings (rows_of (found_of found.now))) }
{
    let cells = number_of(found, "cells")?;
    let forks = number_of(found, "forks")?;
    let budget = number_of(found, "budget")?;
    Some(circuit_asked(found, cells, forks, budget))
}

/// What is asked for by the flag of one of these, and else the circuit itself.
fn circuit_asked(found: &ArgMatches<'_>, cells: u32, forks: u32, budget: u32) -> Verilog
    ensures { result ≡ circuit_asked (findings (rows_of (found_of found.now))) cells forks budget }
{
    if is_set(found, "run") {
        Verilog::Run {
            cells,
            forks,
            budget,
        }
    } else if is_set(found, "vcd") {
        Verilog::Waves {
            cells,
            forks,
            budget,
        }
    } else if is_set(found, "bench") {
        Verilog::Bench { budget }
    } else if is_set(found, "needs") {
        Verilog::Needs { budget }
    } else if is_set(found, "schedule") {
        Verilog::Schedule { budget }
    } else {
        Verilog::Circuit {
            cells,
            forks,
            handshake: is_set(found, "handshake"),
        }
    }
}

/// Whether it has a use for the option of this name.
fn has_use(asked: Verilog, name: &str) -> bool
    ensures { result ≡ list_any (bytes_eq name.now) (uses asked) }
{
    match asked {
        Verilog::Circuit { .. } => matches!(name, "cells" | "forks" | "name" | "handshake"),
        Verilog::Run { .. } => matches!(name, "run" | "cells" | "forks" | "budget"),
        Verilog::Waves { .. } => matches!(name, "vcd" | "cells" | "forks" | "budget"),
        Verilog::Bench { .. } => matches!(name, "bench" | "name" | "budget"),
        Verilog::Needs { .. } => matches!(name, "needs" | "budget"),
        Verilog::Schedule { .. } => matches!(name, "schedule" | "budget"),
    }
}

/// Whether an option isn't given, or it has a use for it.
fn goes_with(found: &ArgMatches<'_>, asked: Verilog, name: &str) -> bool
    ensures { result ≡ goes_with (findings (rows_of (found_of found.now))) asked name.now }
{
    !is_given(found, name) || has_use(asked, name)
}

/// Whether each option of `circuit` isn't given, or it has a use for it.
fn all_go_with(found: &ArgMatches<'_>, asked: Verilog) -> bool
    ensures { result ≡ all_go_with (findings (rows_of (found_of found.now))) asked }
{
    goes_with(found, asked, "cells")
        && goes_with(found, asked, "forks")
        && goes_with(found, asked, "budget")
        && goes_with(found, asked, "run")
        && goes_with(found, asked, "vcd")
        && goes_with(found, asked, "needs")
        && goes_with(found, asked, "schedule")
        && goes_with(found, asked, "name")
        && goes_with(found, asked, "handshake")
        && goes_with(found, asked, "bench")
}

/// The job of the words behind `span`.
fn span_job<'a>(found: &ArgMatches<'a>) -> Option<Lent<'a>>
    ensures { option_map lent_tree result ≡ span_job (findings (rows_of (found_of found.now))) }
{
    let file = text_of(found, "file")?;
    let budget = number_of(found, "budget")?;
    let task = Task::Span {
        budget,
        calling: calling_in(found),
        profile: is_set(found, "profile"),
        schedule: is_set(found, "schedule"),
    };
    Some(Lent::Text(file, 1, task))
}

/// The job of the words behind `steps`; a part of the steps that can't be is refused.
fn steps_job<'a>(found: &ArgMatches<'a>) -> Option<Lent<'a>>
    ensures { option_map lent_tree result ≡ steps_job (findings (rows_of (found_of found.now))) }
{
    let file = text_of(found, "file")?;
    let budget = number_of(found, "budget")?;
    let window = window_of(found)?;
    Some(Lent::Text(file, 1, Task::Steps { budget, window }))
}

/// The job of the words behind `call`.
fn call_job(alloc: Global, found: &ArgMatches<'_>) -> Result<Job, WordFault>
    ensures ok { IfOk result (λ done. call_job (findings (rows_of (found_of found.now))) ≡ Some (job_of done)) }
    ensures refused { IsErrOf result Refused → call_job (findings (rows_of (found_of found.now))) ≡ None }
{
    let file = text_in(found, "file")?;
    let workers = number_in(found, "workers")?;
    let budget = number_in(found, "budget")?;
    let numbers = numbers_in(alloc, found, "n")?;
    Ok(Job::Call {
        file: Ident::from_text(alloc, file)?,
        numbers,
        workers,
        budget,
        schedule: is_set(found, "schedule"),
        tally: is_set(found, "tally"),
    })
}

/// The part of a trace that was found.
fn window_of(found: &ArgMatches<'_>) -> Option<Window>
    ensures { result ≡ window_of (findings (rows_of (found_of found.now))) }
{
    let from = number_of(found, "from")?;
    let most = number_of(found, "most")?;
    Some(Window { from, most })
}

/// By name, or by value where that was found.
fn calling_in(found: &ArgMatches<'_>) -> Calling
    ensures { result ≡ calling_in (findings (rows_of (found_of found.now))) }
{
    calling_of(is_set(found, "by-value"))
}

/// The part of a trace, where a trace is asked for.
fn if_traced(is_traced: bool, window: Window) -> Option<Window>
    ensures { result ≡ if_traced is_traced window }
{
    if is_traced { Some(window) } else { None }
}

/// The text that was found for an argument, which has to be there.
fn text_in<'a>(found: &ArgMatches<'a>, name: &str) -> Result<&'a str, WordFault>
    ensures ok { IfOk result (λ s. text_of name.now (rows_of (found_of found.now)) ≡ Some s.now) }
    ensures refused { IfErr result (λ f. (f ≡ Refused) × (text_of name.now (rows_of (found_of found.now)) ≡ None)) }
{
    text_of(found, name).ok_or(WordFault::Refused)
}

/// The name of a circuit's module that was found, where it is one.
fn name_in<'a>(found: &ArgMatches<'a>) -> Option<&'a str>
    ensures { option_map (λ s. s.now) result ≡ name_in (findings (rows_of (found_of found.now))) }
{
    let text = text_of(found, "name")?;
    if is_module_name(text.as_bytes()) {
        Some(text)
    } else {
        None
    }
}

/// The number that was found for an argument, which has to be there.
fn number_in(found: &ArgMatches<'_>, name: &str) -> Result<u32, WordFault>
    ensures ok { IfOk result (λ n. number_of name.now (rows_of (found_of found.now)) ≡ Some n) }
    ensures refused { IfErr result (λ f. (f ≡ Refused) × (number_of name.now (rows_of (found_of found.now)) ≡ None)) }
{
    number_of(found, name).ok_or(WordFault::Refused)
}

/// The numbers that were found for an argument: none where it isn't given.
fn numbers_in(alloc: Global, found: &ArgMatches<'_>, name: &str) -> Result<Vec<u64>, WordFault>
    ensures ok { IfOk result (λ v. numbers_of name.now (rows_of (found_of found.now)) ≡ Some v.items) }
    ensures refused { IsErrOf result Refused → numbers_of name.now (rows_of (found_of found.now)) ≡ None }
{
    match found.get_raw(name) {
        Some(texts) => wide_numbers_in(alloc, texts),
        None => Ok(Vec::new(alloc)),
    }
}

/// The numbers that texts spell, each of which has to spell one.
fn wide_numbers_in(alloc: Global, texts: &[&str]) -> Result<Vec<u64>, WordFault>
    ensures ok { IfOk result (λ v. wide_numbers_in (map (λ s. s.now) texts.now) ≡ Some v.items) }
    ensures refused { IsErrOf result Refused → wide_numbers_in (map (λ s. s.now) texts.now) ≡ None }
{
    let mut numbers = Vec::new(alloc);
    for text in texts {
        match wide_number_in(text) {
            Some(number) => numbers.push(number)?,
            None => return Err(WordFault::Refused),
        }
    }
    Ok(numbers)
}

/// The number below 2 ^ 64 that a text spells.
fn wide_number_in(text: &str) -> Option<u64>
    ensures { result ≡ wide_number_in text.now }
{
    match text.parse::<u64>() {
        Ok(number) => Some(number),
        Err(_) => None,
    }
}

/// The text that was found for an argument.
fn text_of<'a>(found: &ArgMatches<'a>, name: &str) -> Option<&'a str>
    ensures { option_map (λ s. s.now) result ≡ text_of name.now (rows_of (found_of found.now)) }
{
    found.get_str(name)
}

/// The number that was found for an argument.
fn number_of(found: &ArgMatches<'_>, name: &str) -> Option<u32>
    ensures { result ≡ number_of name.now (rows_of (found_of found.now)) }
{
    found.get_one::<u32>(name)
}

/// Whether a flag is set.
fn is_set(found: &ArgMatches<'_>, name: &str) -> bool
    ensures { result ≡ is_set name.now (rows_of (found_of found.now)) }
{
    found.get_one::<bool>(name).unwrap_or(false)
}

/// Whether the words give an argument.
fn is_given(found: &ArgMatches<'_>, name: &str) -> bool
    ensures { result ≡ is_given name.now (rows_of (found_of found.now)) }
{
    is_from_words(found.value_source(name))
}

/// Whether a value comes from the words, and is no default.
fn is_from_words(source: Option<ValueSource>) -> bool
    ensures { result ≡ is_from_words source }
{
    matches!(source, Some(ValueSource::CommandLine))
}
