//! Laws about the definitions. Each function does nothing: its contract is the law.
ghost use Rattle.nms_import_trades.specs.Examples.{ExamplesHold};

/// The definitions of mappings of trades give what the worked examples say.
pub fn worked_examples()
    ensures { ExamplesHold }
{}
