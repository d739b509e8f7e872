//! What is always true of what is told of a program.

ghost use Rattle.goi_batches.specs.Laws.{OneSection};

use adequacy_laws::law_one_length;
use batch_lists::law_one_list;
use function_runs::law_one_function;
use goi_tasks::law_one_listing;
use program_runs::law_one_program;
use replay_check::law_one_replay;
use schedule_log::law_log_one_answer;

/// What is told of a program is settled by its text and its budget alone.
pub fn law_one_section()
    ensures { OneSection }
{
    law_one_length();
    law_one_program();
    law_one_listing();
    law_log_one_answer();
    law_one_replay();
    law_one_list();
    law_one_function();
}
