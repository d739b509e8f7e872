//! What holds of reports.

ghost use Rattle.goi_reports.specs.Laws.{PlainRun, TallyAddsUp};
ghost use Rattle.goi_reports.specs.Rows.{Rows};

/// The counts of a tally add up to the number of moves.
pub fn law_tally_adds_up()
    ensures { TallyAddsUp }
{}

/// The report of a run without schedule and tally is its two lines.
pub fn law_plain_run()
    ensures { PlainRun }
{}

/// Reports with their texts.
pub fn law_report_rows()
    ensures { Rows }
{}
