//! Whether a setup's tape has room for epochs: `specs/Room`.
ghost use Rattle.std.specs.Prelude.{◌≡◌, ◌*◌, nat_le};
ghost use Rattle.nms_serving.specs.Room.{most_opening};

use nms_fees::Setup;

/// The least `tape_limit` that has room for epochs. It is twice the most opening changes of the setup's roster: two for each
/// participant in a symbol, and one for the symbol.
pub fn least_tape_limit(setup: &Setup) -> u64
    ensures { result ≡ 2 * most_opening setup.now.roster }
{
    let (parts, syms) = (setup.roster().parts() as u64, setup.roster().syms() as u64);
    2 * (syms * (2 * parts + 1))
}

/// Whether a tape has room for twice the most opening changes of its roster (`least_tape_limit`). So each epoch takes at least as
/// many changes of the feeds as it may begin with.
pub fn has_room_for_epochs(setup: &Setup) -> bool
    ensures { result ≡ nat_le (2 * most_opening setup.now.roster) setup.now.tape_limit }
{
    least_tape_limit(setup) <= setup.tape_limit()
}
