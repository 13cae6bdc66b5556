// The worked examples.
ghost use Rattle.collapse.specs.Cases.{Worked};

// Each row of the table of worked examples holds.
pub fn worked_cases_stand()
    ensures { Worked }
{}
