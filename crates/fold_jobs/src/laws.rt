ghost use Rattle.fold_jobs.specs.Laws.{LegalRecordsEnumerate, RecordsGrow, RightOutcomesStay};

/// In every legal record each job shows the orders of its rules.
pub fn legal_records_enumerate()
    ensures { LegalRecordsEnumerate }
{
    job_enumeration::laws::legal_records_enumerate();
}

/// A legal record stays legal by just the events that are legal for the jobs that it leads to.
pub fn records_grow()
    ensures { RecordsGrow }
{}

/// Outcomes that are right for a job stay right for it.
pub fn right_outcomes_stay()
    ensures { RightOutcomesStay }
{}
