//! Laws about the definitions. Each function does nothing: its contract is the law.
ghost use Rattle.nms_import.specs.Examples.{ExamplesHold};
ghost use Rattle.nms_import.specs.FaultExamples.{FaultExamplesHold};
ghost use Rattle.nms_import.specs.SideExamples.{SideExamplesHold};

/// The definitions of times give what the worked examples say.
pub fn worked_examples()
    ensures { ExamplesHold }
{}

/// The definitions of faults of mappings give what the worked examples say.
pub fn worked_faults()
    ensures { FaultExamplesHold }
{}

/// The definitions of rows of one side give what the worked examples say.
pub fn worked_sides()
    ensures { SideExamplesHold }
{}
