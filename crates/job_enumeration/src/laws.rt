ghost use Rattle.job_enumeration.specs.Laws.{LegalRecordsEnumerate, RecordsGrow};
ghost use Rattle.job_enumeration.specs.Rows.{WorkedRecord};

/// Every legal record of a job enumerates the orders of its rules.
pub fn legal_records_enumerate()
    ensures { LegalRecordsEnumerate }
{}

/// A legal record stays legal by just the events that are legal for the job that it leads to.
pub fn records_grow()
    ensures { RecordsGrow }
{}

/// A record worked by hand is legal, and shows what it should.
pub fn worked_record_is_legal()
    ensures { WorkedRecord }
{}
