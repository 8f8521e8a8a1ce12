//! The laws about a client's answers: `specs/Laws`. Each function does nothing: its contract is the law.
ghost use Rattle.nms_answers.specs.Laws.{AnswersAsAScript, EpochsNeverFall, ServesAsAnswers};

/// A client gets the same answers as a script of the same records, if each of the script's looks sees the version of the
/// client's answer.
pub fn a_client_is_answered_as_a_script()
    ensures { AnswersAsAScript }
{}

/// A client that goes over from epoch to epoch gets the same answers as in one epoch. Its epochs never fall. In one epoch, each
/// version that it sees begins with all that it saw of it before.
pub fn a_client_goes_from_epoch_to_epoch()
    ensures answers { ServesAsAnswers }
    ensures epochs { EpochsNeverFall }
{}
