//! Laws of the definitions. Each function does nothing: its contract is the law.
ghost use Rattle.nms_calls.specs.Examples.{ExamplesHold};

/// The definitions give what the worked examples say.
pub fn worked_examples()
    ensures { ExamplesHold }
{}
