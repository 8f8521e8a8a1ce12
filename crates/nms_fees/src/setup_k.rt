/// The default setup, as the document that `read_setup` of `nms_fees` reads. It has four participants: N and P on feed A, Y and
/// Z on feed B. Their access fees are in nanodollars a share, their rates in hundred-thousandths of the price. There are two
/// symbols in round lots of 100 shares, a tape of 1,000 changes, a queue of 16, and two desks. This product's own rule.
pub const SETUP_K: &str = "tape_limit = 1000
queue = 16
desks = 2

[[participant]]
name = \"N\"
feed = \"A\"
fee = 3000000
rate = 300

[[participant]]
name = \"P\"
feed = \"A\"
fee = 2800000
rate = 300

[[participant]]
name = \"Y\"
feed = \"B\"
fee = -200000
rate = 0

[[participant]]
name = \"Z\"
feed = \"B\"
fee = 3000000
rate = 300

[[symbol]]
name = \"ABC\"
lot = 100

[[symbol]]
name = \"PNY\"
lot = 100
";
