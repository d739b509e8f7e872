//! The law that what comes of a text is settled by its bytes.

ghost use Rattle.net_text.specs.Laws.{OneAnswer};
ghost use Rattle.goi_tasks.specs.Settles.{TextsSettle};

use batch_lists::law_one_list;
use function_runs::law_one_function;
use program_runs::law_one_program;
use replay_check::law_one_replay;
use schedule_log::law_log_one_answer;

/// What comes of a text is settled by its bytes: a task on it ends with one status, or the text has one first fault, and so it is with a
/// schedule on a program's net and with a call of a function.
pub fn law_tasks_settled()
    ensures { TextsSettle }
{
    law_one_program();
    law_one_listing();
    law_log_one_answer();
    law_one_replay();
    law_one_list();
    law_one_function();
}

/// A listing is that of one program, or has one first fault.
pub fn law_one_listing()
    ensures { OneAnswer }
{
    net_text::law_listing_one_answer();
}
