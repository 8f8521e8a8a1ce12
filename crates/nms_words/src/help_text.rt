//! The text of the help after the commands and options: the statuses, and a line for each refusal.

/// The version that `--version` reports.
pub(crate) const VERSION: &str = "0.3.0";

/// The end of the help. It explains each code of a refusal, because an installed program has no `docs/ERRORS.md` next to it. That
/// page says what to do about a refusal.
pub(crate) const AFTER_HELP: &str = "Each command also takes:
      --setup <FILE>  The file of the setup, in place of the built-in one

Exit statuses:
  0  done, or help or the version was asked for
  1  a file or stream could not be read or written
  2  the words were refused
  3  the setup was refused
  4  a plan is not confirmed
  5  out of memory
  6  an input record, a plan or a length was refused
  7  a live run was refused

Records that are refused, of a script (answered ERR,number,code) or of a file:
  L1   the first field is no kind of record that is served here
  L2   the number of fields is not that of the kind
  L3   the participant, or one that an order names, is not on the roster
  L4   the symbol is not on the roster
  L5   the state is not A, M or H, the side of an order not B or S, its flag not M, or the word of R not AVG
  L6   a price, or the limit of an order, is not 1 to 7 digits with at most 4 decimals, or is zero
  L7   shares are not 1 to 9 digits, or those of an order are 0
  L8   exactly one of the two fields of a side is empty
  L9   a change came on a feed that is not its participant's, or R on another than A
  L10  the desk is not below the number of desks
  L14  the round lot of R is not 1 to 4 digits, or not from 1 to 1000
  F2   a change was sent and the queue is full
  F3   a take, and the queue is empty
  F4   a change beyond the limit of the tape
  F5   out of memory at a take

Plans that can't be read or written:
  L11  not the text of a plan
  L12  out of memory
  L13  the text could not be written

Plans that are not confirmed (told as DOUBT,CODE; a breach as DOUBT,K1,CODE):
  A1   the plan's version is beyond the changes
  A2   a doubt, told by its own code
  A3   out of memory
  K1   the plan is not lawful, or not summed rightly
  K2   it fills less than can be filled
  K3   a price that it may trade at has no cut
  K4   a cut at another price, twice, or out of order
  K5   a cut of the wrong kind
  K6   a marginal beyond 10^18 nanodollars either way
  K7   a cut's bound is below the plan's cost
  P1   another version
  P2   another order
  P3   a leg to a participant without a quotation for it, or that the order names
  P4   a leg at another price than the quotation's
  P5   a leg of 0 shares
  P6   a leg of more shares than are displayed
  P7   two legs to one participant
  P8   a leg beyond the limit
  P9   more shares than were asked for
  P10  a better protected quotation, of one that the order does not name, is traded through
  P11  the shares are summed wrongly
  P12  the cost is summed wrongly

Runs that end early (told as nms_tool: CODE, as are the codes below):
  E1   a file or the input could not be read
  E2   the output could not be written
  E3   a script of more than 10,000,000 records, or a feed of more than 1,000,000,000 bytes
  E4   out of memory
  E5   a record of a feed was refused
  E6   a live run could not begin: no memory, or no thread
  E7   a change of a feed beyond the limit of the tape, or without memory for it
  E8   a desk could not look, or could not end
  E9   a gate did not open in 1,000,000 turns
  E10  out of memory in a live run
  B1   out of memory for a board

Setups that are refused:
  C1   no TOML, or no UTF-8
  C2   a required key is absent
  C3   an unknown key
  C4   a name that is not of its form, or stands twice
  C5   a value that is not of its kind
  C6   a number out of its range, a feed that is none of the setup's, or an empty array
  C7   a fee or a rate over its cap
  C8   more than 32 participants or 1,000 symbols
  C9   out of memory

Words that are refused:
  G1   the parser's text stands in place of this code
  G2   out of memory
  usage  a word is no UTF-8; a symbol, side, number of shares, limit or name is none; live has not a file for each feed

Calls of the library that are refused:
  F1   out of memory for a machine
  N1   out of memory for a lane
  N2   the lane is full
  N3   a change of the lane is still to be taken
  Q1   a name that is not of its form
  Q2   a name that is on the roster
  Q3   more than 32 participants or 1,000 symbols
  Q4   out of memory
  U1   a price that is not of its form
  U2   a price of zero
  U3   shares that are not of their form
  U4   money that is not of its form
  V1   out of memory for published versions
  V2   no place for a desk among those that read them
  V3   out of memory for a change
  V4   a change beyond the limit of the tape
  V5   a look after the publisher was closed";
