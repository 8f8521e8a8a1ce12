//! The law about the two readers of a setup, `specs/Laws`: what `nms_fees` refuses is the least of the mistakes that `examine`
//! finds. The function changes nothing: its contract is the law.
ghost use Rattle.nms_setup_places.specs.Laws.{ReadsLeastFinding};

/// A text is read as a setup if and only if an examination finds no mistake in it. If not, it is read as the fault with the
/// least number among the mistakes found.
pub fn the_least_finding_is_read()
    ensures { ReadsLeastFinding }
{}
