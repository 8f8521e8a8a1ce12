//! The laws about plans' records: `specs/PlanOrder` and `specs/PlanExamples`. The functions do nothing at run time: their
//! contracts are the laws.
ghost use Rattle.nms_explain.specs.PlanExamples.{ExamplesHold};
ghost use Rattle.nms_explain.specs.PlanOrder.{ReadsWhereNoRecordIsWrong};

/// A text's records are read as a plan if and only if none is wrong and none is missing at the end. So if a report finds
/// nothing wrong with a text, and nothing missing, the text is taken.
pub fn a_plan_is_read_where_no_record_is_wrong()
    ensures { ReadsWhereNoRecordIsWrong }
{}

/// The worked examples of plans' records in their order hold.
pub fn the_worked_plans_hold()
    ensures { ExamplesHold }
{}
