//! A served run is a script. In each epoch there is one script whose answers are, for each client in order, everything that the
//! client got. No function changes anything: its contract is the law.
//!
//! The laws take what `answer_stream` promises about a client's stream. Their premises are that answers are on published
//! versions, and that all of the tape was published. Only `tests/replay.py` shows this for a run. If a script may answer in
//! several ways (the plan of an order), what the client got is one of them. After a fault, a tape is covered up to its last
//! publishing. The laws say nothing about the files' bytes.
ghost use Rattle.std.specs.Prelude.{◌≡◌};
ghost use Rattle.nms_answers.specs.OneScript.{IsOneScript};
ghost use Rattle.nms_answers.specs.ServedEpoch.{Epoch, IsServed};
ghost use Rattle.nms_answers.specs.ServedExamples.{ExamplesHold};
ghost use Rattle.nms_answers.specs.ServedRun.{RunIsScripts};
ghost use Rattle.nms_answers.specs.Stretches.{StreamsAreCut};

use nms_change_text::changes_read_as_written;
use nms_fees::Setup;
use nms_flow::tape_and_queue_are_a_merge;

/// An epoch is one script: its answers are, for each client in order, everything that the client got. The script, `script_of`,
/// is made from the tape and the requests. For each publishing it has the changes since the one before, and the publishing.
/// Then come the requests that were answered on that version, client by client. A refusal has the number of its request in the
/// client's stream.
pub fn a_served_epoch_is_a_script(setup: &Setup)
    ensures { (epoch : Epoch) → IsServed setup.now epoch → IsOneScript setup.now epoch }
{
    changes_read_as_written(setup.roster());
    let _room = setup.queue();
    tape_and_queue_are_a_merge();
}

/// A client's stream, as `answer_stream` promises it, is cut by epochs. In each epoch the client's requests are answered in
/// order, on versions that never fall. The epochs rise.
pub fn a_stream_is_cut_by_epochs()
    ensures { StreamsAreCut }
{}

/// So a run is one script for each epoch. A client gets, epoch by epoch, the line of an epoch that it goes over to, and the
/// answers of that epoch's script.
pub fn a_served_run_is_its_scripts(setup: &Setup)
    ensures { RunIsScripts setup.now }
{
    a_served_epoch_is_a_script(setup);
}

/// The definitions give what the worked examples say.
pub fn worked_examples()
    ensures { ExamplesHold }
{}
