//! The answer with what is printed of Verilog.

ghost use Rattle.pcf_values.specs.Most.{most_program_bytes};
ghost use Rattle.goi_engine.specs.Answers.{AnswersFile, Says};
ghost use Rattle.goi_engine.specs.FilesSeen.{Whatever, LoadedBy};
ghost use Rattle.goi_jobs.specs.Verilogs.{IsPrinted};
ghost use Rattle.goi_tasks.specs.Verilogs.{ReportsVerilog, FaultyVerilog};
ghost use Rattle.goi_world.specs.Seen.{FilesKept};

use crate::answer::{Answer, not_loaded, stopped};
use crate::load::load;
use goi_jobs::Verilog;
use goi_tasks::report_verilog;
use goi_world::Files;
use pcf_values::limits::PROGRAM_BYTES;
use std::alloc::Global;

/// The answer with what is printed of Verilog for the text of a file, where the circuit's module has this name.
pub(crate) fn answer_verilog<F: Files>(
    alloc: Global,
    files: &mut F,
    file: &str,
    name: &str,
    verilog: Verilog,
) -> Answer
    requires printed { IsPrinted verilog }
    ensures kept { FilesKept (F.seen files.old) (F.seen files.new) }
    ensures answers { Whatever F.seen F.fits files.old files.new (λ old new.
        AnswersFile (ReportsVerilog name.now verilog) (FaultyVerilog verilog) file.now old new result) }
    ensures reads { LoadedBy F.reads file.now most_program_bytes files.old files.new }
{
    match load(alloc, files, file, PROGRAM_BYTES as u32) {
        Ok(bytes) => print_verilog(alloc, &bytes, name, verilog),
        Err(error) => not_loaded(error),
    }
}

/// The answer with what is printed of Verilog for a text.
fn print_verilog(alloc: Global, bytes: &[u8], name: &str, verilog: Verilog) -> Answer
    requires printed { IsPrinted verilog }
    ensures { Says (ReportsVerilog name.now verilog bytes.now) (FaultyVerilog verilog bytes.now) result }
{
    match report_verilog(alloc, bytes, name.as_bytes(), verilog) {
        Ok(report) => Answer::Prints(report),
        Err(stop) => stopped(alloc, stop),
    }
}
