//! Many changes in one call: `specs/Opened`.
ghost use Rattle.std.specs.Prelude.{◌≡◌, ◌+◌, take};
ghost use Rattle.std.specs.Result.{result_err};
ghost use Rattle.nms_calls.specs.Opened.{AreApplied, all_applied, version};

use crate::call_fault::CallFault;
use crate::change_numbers::NmsChange;
use crate::open_board::OpenBoard;

impl OpenBoard {
    /// Applies changes in order up to the first that is refused, and writes how many were applied.
    pub fn apply_all(&mut self, changes: &[NmsChange], applied: &mut usize) -> Result<(), CallFault>
        ensures answer { result_err result ≡ (all_applied self.old changes.now).fault }
        ensures applied { applied.new ≡ (all_applied self.old changes.now).applied }
        ensures left { AreApplied self.old (take applied.new changes.now) self.new }
        ensures version { version self.new ≡ version self.old + applied.new }
    {
        let mut taken = 0;
        for change in changes {
            if let Err(fault) = self.apply(change) {
                *applied = taken;
                return Err(fault);
            }
            taken += 1;
        }
        *applied = taken;
        Ok(())
    }
}
