//! What the help of each command says after its arguments.

/// What the program is asked for most, and how it ends.
pub(crate) const PROGRAM: &str =
    "For example a stock's book at a time, why a message was refused, an order's life, and a stock's
trades:
  itch show DAY AAPL --at 09:30:00
  itch why DAY 100000
  itch order DAY AAPL 4711
  itch trades DAY AAPL

A compressed day comes by a pipe:
  gunzip -c DAY.gz | itch replay /dev/stdin

Without a command it replays a day that comes in hexadecimal digits on standard input.

Status: 0 done; 1 `replay`, or no command, is done, and a message was refused; 2 invalid arguments;
3 reading or writing failed, or the input isn't taken; 4 no memory; 5 a line of a text is faulty.";

/// The lines of a report.
pub(crate) const REPORT: &str = "Example:
  itch replay DAY --workers 4

Lines of the report:
  message   a refused message: its number, and its fault, F1 to F12; `itch why DAY N` says why
  messages  how many there are, were applied, passed over (unknown types) and refused; if the
            file ends with a marker, how many bytes come after its last message or marker, and
            the last system event
  stock     locate code, symbol, trading state, its reason and short sale action, as the
            exchange gave them
  bid, ask  each price level, the best first, with its shares; none where a side is empty
  trades    the printed trades that nothing broke, their shares, and the sum of shares times
            prices; at last the shares of the others that nothing broke

Prices are in 1/10,000 of a currency unit.";

/// The fields of a summary.
pub(crate) const SUMMARY: &str = "Example:
  itch summary DAY >summary.csv

The first line names the fields. `messages` and `refused` count the stock's own, `orders` those that
live at the end. Of the printed trades that nothing broke `trades` says how many there are, `shares`
the sum of their shares, and `notional` that of shares times prices; `unprinted` has the shares of
the others that nothing broke. So notional / shares / 10,000 is the average price of a share, with
crosses among them. Prices are in 1/10,000 of a currency unit.";

/// The end of a text.
pub(crate) const TEXT: &str = "Examples:
  itch dis DAY --from 100 --to 200
  itch dis DAY >day.text

Line n is message n. The last lines are the end of the file: `end` where it has its marker, and
`rest` or `cut` for bytes after its last message. `itch asm` makes the file again. Prices are in
1/10,000 of a currency unit, times in nanoseconds since midnight.";

/// The lines of stocks.
pub(crate) const STOCKS: &str = "Example:
  itch stocks DAY

Each line has a stock's locate code, its symbol between quotes, and how many messages it has.";

/// The fields of best bids and asks.
pub(crate) const TOPS: &str = "Example:
  itch tops DAY AAPL >tops.csv

The first line names the fields, and those of an empty side are empty. Prices are in 1/10,000 of
a currency unit, times in nanoseconds since midnight.";

/// The lines of a stock.
pub(crate) const SHOWN: &str = "Example:
  itch show DAY AAPL --at 09:30:00

Lines:
  at        the number of messages of the day so far, and what became of the last one
  stock     locate code, symbol, trading state, its reason and short sale action, as the
            exchange gave them
  bid, ask  each price level, the best first, with its shares; none where a side is empty
  order     each live order: reference, side (B or S), shares, price, participant
  trades    the printed trades that nothing broke, their shares, and the sum of shares times
            prices; at last the shares of the others that nothing broke
  no stock  where the locate code has no directory message yet

Prices are in 1/10,000 of a currency unit. With --at the messages of that very time are among them.";

/// The lines of a message.
pub(crate) const WHY: &str = "Example:
  itch why DAY 100000

Lines:
  at        the message's number, and what became of it; after it the message's text
  F1 .. F12 where it was refused: the number and the name of the first check that fails, and why
  order     each order that it names, as it was before: reference, side (B or S), shares, price,
            participant
  no order  where no order has had a reference that it names; `spent` where one had it before
  K LINE    each earlier message of the stock that was applied and names one of these orders:
            its number and its text; where message N breaks a trade, those of its match number

Prices are in 1/10,000 of a currency unit, times in nanoseconds since midnight.";

/// The lines of an order's life.
pub(crate) const ORDER: &str = "Example:
  itch order DAY AAPL 4711

Each line has a message's number, what became of it, and its text. The last has the order as it
lives at the end of the day (reference, side, shares, price, participant), or `gone`, or `no
order` where there was none. Prices are in 1/10,000 of a currency unit, times in nanoseconds
since midnight.";

/// The fields of trades.
pub(crate) const TRADES: &str = "Example:
  itch trades DAY AAPL >trades.csv

The first line names the fields:
  type     E or C an order's execution, P a trade of an order that isn't displayed, Q a cross
  side     B or S, that of the order; empty for a cross
  printed  N where the volume that the exchange reports leaves it out, else Y
  broken   the number of the message that broke it, or nothing

Prices are in 1/10,000 of a currency unit, times in nanoseconds since midnight.";

/// The fields of a trace.
pub(crate) const TRACE: &str = "Example:
  itch trace DAY AAPL --depth 10 >trace.csv

The first line names the fields:
  outcome  applied, passed (an unknown type), or F1 to F12 where it was refused: the number of the
           first check that fails
  bid_price, bid_shares, ask_price, ask_shares
           the best levels of the message's stock after it; with --depth also the next ones, with
           _2 to _10. They are empty where there is no such level, and for messages of no stock.

With STOCK there are lines of its own messages alone. Time, type and locate are the message's. Prices
are in 1/10,000 of a currency unit, times in nanoseconds since midnight.";

/// The lines of a screen.
pub(crate) const WATCH: &str = "Example:
  itch watch DAY AAPL --workers 4

Each line has a message's number, and the best bid and ask after it, with their shares. Which messages
a screen sees depends on the threads, but for the last: what they were, `itch tops` says. Prices are in
1/10,000 of a currency unit.";

/// What is made of a text.
pub(crate) const ASSEMBLED: &str = "Example:
  itch asm day.text day.itch

It prints nothing. The text of a day's file, which `itch dis` prints, makes the same bytes again.";

/// The commands of a debugging session, with an example each.
pub(crate) const SESSION: &str = "Example:
  itch debug DAY

Commands, a line each:
  goto 1000                  to the position after that many messages
  step                       one message on
  back                       one message back
  onward                     to the next message at which a breakpoint stops
  rearward                   to the one before
  break price 1 B 1500000    stop where the shares bid (B) or asked (S) at a price of a stock change
  break reference 1 42       stop at each message of a stock with that order reference
  break time 34200000000000  stop at the first message from that time on, in nanoseconds since midnight
  breaks                     list the breakpoints
  remove 1                   remove a breakpoint
  event                      show the last system event
  show 1                     show a stock
  quit                       end

Stocks are named by locate code, which `itch stocks FILE` lists. Prices are in 1/10,000 of a currency unit.";
