//! The texts of the help before and after the options.

/// The version that `--version` prints.
pub(crate) const VERSION: &str = "0.3.0";

pub(crate) const ABOUT: &str =
    "Serves the quote board: reads feeds as they come, and answers requests as they come";

/// The end of the help.
pub(crate) const AFTER_HELP: &str =
    "A path may be a FIFO: it is read, or written, as its other end comes and goes.
Without --client, requests come from standard input and answers go to standard
output. Beside the tape's file, FILE.published has its length at each publishing.
When the tape has as many changes as the setup's tape_limit, an epoch begins: its tape
is FILE.1, then FILE.2 and so on, and EPOCH,1 stands before a client's first answer there.

FILE.setup has the setup's text. With --resume the run goes on after whatever end of an
earlier one: under the same setup, in the next epoch, from the board published last.

With --keep the FIFOs of feeds and clients are read on after their other ends left, and
a client's fault ends its connection alone. A signal ends the run: TERM and INT end it
cleanly, if they are blocked when it starts, as ./nms_serve does.

Requests, one a line, as in scripts:
  N,DESK,SYM                                 the best bid and offer
  E,DESK,SYM,PRICE                           what a trade at the price trades through
  O,DESK,SIDE,SYM,SHARES,LIMIT[,FLAG[,NAMES]]  an order: its plan and certificate

Exit statuses:
  0  all streams ended, and no record was refused
  1  a stream could not be opened, read or written
  2  the words were refused
  3  the setup was refused, or its tape_limit has no room for epochs
  5  out of memory
  6  all streams ended, and a record was refused
  7  a board could not begin, or its tape was full

docs/SERVING.md of the repository says how to run it, and docs/ERRORS.md what each code means.";
