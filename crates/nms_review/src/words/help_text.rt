//! What the help says after the subcommands.

/// The version that `--version` reports.
pub(crate) const VERSION: &str = "0.3.0";

pub(crate) const ABOUT: &str =
    "Explains what the quote board's program refused, answered and planned";

/// The end of the help.
pub(crate) const AFTER_HELP: &str = "Each subcommand also takes:
      --setup <FILE>  The file of the setup, in place of the built-in one (but for when and day)
      --json          Prints one JSON object a line (but for tape, opening, draw and import)

Exit statuses:
  0  done, and nothing was refused or doubted; or help or the version was asked for
  1  a file or stream could not be read or written
  2  the words were refused
  3  the setup or the mapping was refused
  4  a plan is not confirmed, or a vendor's national best differs
  5  out of memory
  6  an input record, a plan or a length was refused
  7  files were imported, and the counts or the times say that something is wrong

`nms_review explain code CODE` prints what a code means and what to do about it. docs/ERRORS.md has all of them.";
