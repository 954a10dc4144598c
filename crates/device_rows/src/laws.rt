//! Laws on the definitions. Their statements are in `specs/Laws.antt`; the functions do nothing.

ghost use Rattle.device_rows.specs.Laws.{FirstFaultStands, FirstRecordsDecide};

/// The first 100002 records of a text determine its trace: any greater number of them, up to all, has the same rows or the same
/// error. [`read_trace`](crate::read_trace) asks for no more.
pub fn first_records_decide()
    ensures { FirstRecordsDecide }
{}

/// A text that is cut off after an error has that error, and so has every text that continues from there. So the error of a
/// trace is that of its first faulty row.
pub fn first_fault_stands()
    ensures { FirstFaultStands }
{}
