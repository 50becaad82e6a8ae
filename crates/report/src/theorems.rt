// What is proved beside the contracts of the functions. Nothing is done here: that this function has its contract is
// that the theorems stand.
ghost use Rattle.std.specs.Prelude.{◌≡◌, [], ◌∷◌, codes, true, None};
ghost use Rattle.report.specs.Days.{row_none};
ghost use Rattle.report.specs.Reports.{ended_text, table_new};
ghost use Rattle.report.specs.Settled.{AreTold, EndsTold, open_row, plain_page, clock_page, thursday_page, first_week};
ghost use Rattle.report.specs.Settled.{clock_query, bar_rows, day_rows, clock_rows, week_rows, first_week_rows};
ghost use Rattle.report.specs.Settled.{thursday_rows, month_rows, calendar_rows, begun_rows, more_rows};
ghost use Rattle.report.specs.Settled.{csv_rows, line_rows};
ghost use Rattle.report.specs.declared.Report.TheVariants.{Lines, Csv, Table};

/// Stretches are told of as RULES, Floor log, has it: as bars and rows on the page's scale, by days, weeks and months;
/// as comma-separated values, with the last row; in the page's table; and as lines; at the end a lamp's seconds.
#[tactic(auto, using(crate::proofs::Settled::told_stretches))]
pub fn stretches_are_told_so()
    ensures bars { AreTold (plain_page 7 (open_row 1 2)) bar_rows }
    ensures days { AreTold (plain_page 7 (open_row 0 1)) day_rows }
    ensures clock { AreTold (clock_page 7 (open_row 0 1)) clock_rows }
    ensures weeks { AreTold (plain_page 100 (open_row 0 7)) week_rows }
    ensures first_week { AreTold (thursday_page row_none) first_week_rows }
    ensures thursday { AreTold (thursday_page first_week) thursday_rows }
    ensures months { AreTold (plain_page 401 (open_row 0 30)) month_rows }
    ensures calendar { AreTold (clock_page 401 (open_row 0 8)) calendar_rows }
    ensures values { AreTold (Csv clock_query) csv_rows }
    ensures table { AreTold (Table (table_new clock_query)) begun_rows }
    ensures more { AreTold (Table (record { query = clock_query; is_begun = true })) more_rows }
    ensures ends { EndsTold }
    ensures lines { AreTold Lines line_rows }
    ensures totals { ended_text Lines 80 1 (0 ∷ []) (60 ∷ []) (60 ∷ []) None
        ≡ codes "lamp 1 start 0 burnt 60 now 60\n" }
{}
