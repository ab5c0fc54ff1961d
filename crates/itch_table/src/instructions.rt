//! The instructions of the table: each makes its checks, in their order, and has its effect where all of them pass.
ghost use Rattle.std.specs.Prelude.{◌≡◌, ◌≤◌, [], ◌∷◌, Some, None, OnErr, OnOk};
ghost use Rattle.itch_layouts.specs.Shapes.{shape_of};
ghost use Rattle.itch_table.specs.World.{live};
ghost use Rattle.itch_table.specs.Held.{Holds, HoldsPart, on_world};
ghost use Rattle.itch_table.specs.Instructions.{Follows, FollowsShape};
ghost use Rattle.itch_table.specs.Parts.{part};
ghost use Rattle.itch_table.specs.Table.{checks, effect, less_shares, listed, names_stock, with_trade};
ghost use Rattle.itch_table.specs.declared.instructions.Unchanged.TheVariants.{Memory as MemoryRefused, Refused as RefusedBy};

use crate::effects::{
    row_of_add, row_of_add_mpid, set_regsho, set_trading, state_of, trade, with_directory,
};
use crate::faults::{
    check_add, check_broken, check_delete, check_execute_price, check_replace, check_shares,
    check_side, check_stock, keeps_stock,
};
use crate::order::Found;
use crate::outcome::Fault;
use crate::store::Store;
use crate::trades::TradeRow;
use itch_layouts::{
    Add, AddMpid, Breach, Broken, Cancel, Cross, Decline, Delete, Directory, Execute, ExecutePrice,
    Head, Ipo, Kind, Msg, NonCrossTrade, Regsho, Replace, System, TradingAction, kind_of, readers,
};
use std::alloc::AllocError;

/// Why a message left the rows as they were.
#[derive(Clone, Copy)]
pub(crate) enum Unchanged {
    /// The payload is of no type that has a layout.
    Passed,
    /// A check failed.
    Refused(Fault),
    /// Memory was refused.
    Memory,
}

impl From<Fault> for Unchanged {
    ghost from_gives = { λ fault unchanged. unchanged ≡ RefusedBy fault };

    fn from(fault: Fault) -> Unchanged {
        Unchanged::Refused(fault)
    }
}

impl From<AllocError> for Unchanged {
    ghost from_gives = { λ _ unchanged. unchanged ≡ MemoryRefused };

    fn from(_error: AllocError) -> Unchanged {
        Unchanged::Memory
    }
}

// Sets the last event among the rows of all stocks.
fn system<S: Store>(store: &mut S, _head: &Head, m: &System) -> Result<(), Unchanged>
    requires { (S.held store.old).own ≡ None }
    ensures { Follows (S.held store.old) (Msg.System _head.now m.now) (S.held store.new) result }
{
    store.set_event(m.event);
    Ok(())
}

// Sets a stock's directory row.
fn directory<S: Store>(store: &mut S, head: &Head, m: &Directory) -> Result<(), Unchanged>
    requires { Holds (S.held store.old) head.now.locate }
    ensures { Follows (S.held store.old) (Msg.Directory head.now m.now) (S.held store.new) result }
{
    keeps_stock(store, head.locate, &m.stock)?;
    let row = with_directory(store.stock(head.locate).copied(), m);
    store.set_stock(head.locate, row)?;
    Ok(())
}

// Sets a stock's trading state.
fn trading<S: Store>(store: &mut S, head: &Head, m: &TradingAction) -> Result<(), Unchanged>
    requires { Holds (S.held store.old) head.now.locate }
    ensures { Follows (S.held store.old) (Msg.Trading head.now m.now) (S.held store.new) result }
{
    check_stock(store, head.locate, &m.stock)?;
    set_trading(store, head.locate, state_of(m));
    Ok(())
}

// Sets a stock's short sale action.
fn regsho<S: Store>(store: &mut S, head: &Head, m: &Regsho) -> Result<(), Unchanged>
    requires { Holds (S.held store.old) head.now.locate }
    ensures { Follows (S.held store.old) (Msg.Regsho head.now m.now) (S.held store.new) result }
{
    check_stock(store, head.locate, &m.stock)?;
    set_regsho(store, head.locate, m.action);
    Ok(())
}

// Adds an order without attribution.
fn add<S: Store>(store: &mut S, head: &Head, m: &Add) -> Result<(), Unchanged>
    requires here { Holds (S.held store.old) head.now.locate }
    requires room { S.has_room store.old }
    ensures { Follows (S.held store.old) (Msg.Add head.now m.now) (S.held store.new) result }
{
    check_add(store, head.locate, m.reference, m.side, m.shares, &m.stock)?;
    store.add_order(head.locate, m.reference, row_of_add(m))?;
    Ok(())
}

// Adds an order with attribution.
fn add_mpid<S: Store>(store: &mut S, head: &Head, m: &AddMpid) -> Result<(), Unchanged>
    requires here { Holds (S.held store.old) head.now.locate }
    requires room { S.has_room store.old }
    ensures { Follows (S.held store.old) (Msg.AddMpid head.now m.now) (S.held store.new) result }
{
    check_add(store, head.locate, m.reference, m.side, m.shares, &m.stock)?;
    store.add_order(head.locate, m.reference, row_of_add_mpid(m))?;
    Ok(())
}

// Takes shares off an order by a trade.
fn take_by_trade<S: Store>(
    store: &mut S,
    locate: u16,
    reference: u64,
    found: Found,
    shares: u32,
    trade: TradeRow,
) -> Result<(), AllocError>
    requires here { Holds (S.held store.old) locate }
    requires room { S.has_room store.old }
    requires live { live (S.held store.old).world locate reference ≡ Some found.row }
    requires enough { shares ≤ found.row.shares }
    ensures ok { OnOk result (S.held store.new ≡ on_world
        (λ w. with_trade (less_shares w locate reference found.row shares) locate trade) (S.held store.old)) }
    ensures err { OnErr result (S.held store.new ≡ S.held store.old) }
{
    store.add_trade(locate, trade)?;
    store.reduce_order(locate, reference, found, shares);
    Ok(())
}

// Executes an order at its own price.
fn execute<S: Store>(store: &mut S, head: &Head, m: &Execute) -> Result<(), Unchanged>
    requires here { Holds (S.held store.old) head.now.locate }
    requires room { S.has_room store.old }
    ensures { Follows (S.held store.old) (Msg.Execute head.now m.now) (S.held store.new) result }
{
    let found = check_shares(store, head.locate, m.reference, m.shares)?;
    let trade = trade(m.match_no, u64::from(m.shares), found.row.price, true);
    take_by_trade(store, head.locate, m.reference, found, m.shares, trade)?;
    Ok(())
}

// Executes an order at another price.
fn execute_price<S: Store>(store: &mut S, head: &Head, m: &ExecutePrice) -> Result<(), Unchanged>
    requires here { Holds (S.held store.old) head.now.locate }
    requires room { S.has_room store.old }
    ensures { Follows (S.held store.old) (Msg.ExecutePrice head.now m.now) (S.held store.new) result }
{
    let found = check_execute_price(store, head, m)?;
    let printed = m.printable == b'Y';
    let trade = trade(m.match_no, u64::from(m.shares), m.price, printed);
    take_by_trade(store, head.locate, m.reference, found, m.shares, trade)?;
    Ok(())
}

// Takes shares off an order.
fn cancel<S: Store>(store: &mut S, head: &Head, m: &Cancel) -> Result<(), Unchanged>
    requires { Holds (S.held store.old) head.now.locate }
    ensures { Follows (S.held store.old) (Msg.Cancel head.now m.now) (S.held store.new) result }
{
    let found = check_shares(store, head.locate, m.reference, m.shares)?;
    store.reduce_order(head.locate, m.reference, found, m.shares);
    Ok(())
}

// Removes an order.
fn delete<S: Store>(store: &mut S, head: &Head, m: &Delete) -> Result<(), Unchanged>
    requires { Holds (S.held store.old) head.now.locate }
    ensures { Follows (S.held store.old) (Msg.Delete head.now m.now) (S.held store.new) result }
{
    let found = check_delete(store, head.locate, m.reference)?;
    store.remove_order(head.locate, m.reference, found);
    Ok(())
}

// Replaces an order by a new one.
fn replace<S: Store>(store: &mut S, head: &Head, m: &Replace) -> Result<(), Unchanged>
    requires { Holds (S.held store.old) head.now.locate }
    ensures { Follows (S.held store.old) (Msg.Replace head.now m.now) (S.held store.new) result }
{
    let found = check_replace(store, head, m)?;
    let (old, new) = (m.reference, m.new_reference);
    store.replace_order(head.locate, old, found, new, m.shares, m.price)?;
    Ok(())
}

// Adds a trade that isn't of a displayed order.
fn non_cross_trade<S: Store>(store: &mut S, head: &Head, m: &NonCrossTrade) -> Result<(), Unchanged>
    requires here { Holds (S.held store.old) head.now.locate }
    requires room { S.has_room store.old }
    ensures { Follows (S.held store.old) (Msg.Trade head.now m.now) (S.held store.new) result }
{
    check_side(store, head.locate, &m.stock, m.side)?;
    let trade = trade(m.match_no, u64::from(m.shares), m.price, true);
    store.add_trade(head.locate, trade)?;
    Ok(())
}

// Adds the trade of a cross.
fn cross<S: Store>(store: &mut S, head: &Head, m: &Cross) -> Result<(), Unchanged>
    requires here { Holds (S.held store.old) head.now.locate }
    requires room { S.has_room store.old }
    ensures { Follows (S.held store.old) (Msg.Cross head.now m.now) (S.held store.new) result }
{
    check_stock(store, head.locate, &m.stock)?;
    let trade = trade(m.match_no, m.shares, m.price, true);
    store.add_trade(head.locate, trade)?;
    Ok(())
}

// Breaks trades.
fn broken<S: Store>(store: &mut S, head: &Head, m: &Broken) -> Result<(), Unchanged>
    requires { Holds (S.held store.old) head.now.locate }
    ensures { Follows (S.held store.old) (Msg.Broken head.now m.now) (S.held store.new) result }
{
    check_broken(store, head.locate, m.match_no)?;
    store.break_trades(head.locate, m.match_no);
    Ok(())
}

// The levels of the market-wide circuit breaker, which change no rows.
fn decline<S: Store>(_store: &mut S, _head: &Head, _m: &Decline) -> Result<(), Unchanged>
    ensures { Follows (S.held _store.old) (Msg.Decline _head.now _m.now) (S.held _store.new) result }
{
    Ok(())
}

// A breach of one of these levels, which changes no rows.
fn breach<S: Store>(_store: &mut S, _head: &Head, _m: &Breach) -> Result<(), Unchanged>
    ensures { Follows (S.held _store.old) (Msg.Breach _head.now _m.now) (S.held _store.new) result }
{
    Ok(())
}

// An offering's quoting period, which changes no rows.
fn ipo<S: Store>(_store: &mut S, _head: &Head, _m: &Ipo) -> Result<(), Unchanged>
    ensures { Follows (S.held _store.old) (Msg.Ipo _head.now _m.now) (S.held _store.new) result }
{
    Ok(())
}

// Makes the checks of a message that names a stock, and changes no rows: the instruction of all kinds whose messages
// have these checks and no effect.
fn check_only<S: Store>(store: &S, locate: u16, stock: &[u8; 8]) -> Result<(), Unchanged>
    requires { Holds (S.held store.now) locate }
    ensures { let held = S.held store.now in let w = held.world in
        (m : Msg) → checks m w ≡ listed w locate ∷ names_stock w locate stock.now ∷ [] → effect m w ≡ w
        → Follows held m held result }
{
    check_stock(store, locate, stock)?;
    Ok(())
}

// What the instruction of a kind makes of a payload of that kind, whose fields a reader takes apart.
macro_rules! followed {
    ($store:ident $payload:ident $reader:ident $instruction:ident) => {{
        let (head, m) = readers::$reader($payload);
        $instruction($store, &head, &m)
    }};
}

// The same of a kind whose messages name a stock and change no rows.
macro_rules! checked {
    ($store:ident $payload:ident $reader:ident) => {{
        let (head, m) = readers::$reader($payload);
        check_only($store, head.locate, &m.stock)
    }};
}

/// Follows a payload of any bytes: the first check of its message that fails refuses it, and else it has its effect.
/// Each instruction makes its growth before any change.
pub(crate) fn follow_payload<S: Store>(store: &mut S, payload: &[u8]) -> Result<(), Unchanged>
    requires here { HoldsPart (S.held store.old) (part payload.now) }
    requires room { S.has_room store.old }
    ensures { FollowsShape (S.held store.old) (shape_of payload.now) (S.held store.new) result }
{
    match kind_of(payload) {
        Kind::Unknown => Err(Unchanged::Passed),
        Kind::BadLength => Err(Unchanged::Refused(Fault::WrongLength)),
        Kind::System => followed!(store payload system_of system),
        Kind::Directory => followed!(store payload directory_of directory),
        Kind::Trading => followed!(store payload trading_of trading),
        Kind::Regsho => followed!(store payload regsho_of regsho),
        Kind::Participant => checked!(store payload participant_of),
        Kind::Decline => followed!(store payload decline_of decline),
        Kind::Breach => followed!(store payload breach_of breach),
        Kind::Ipo => followed!(store payload ipo_of ipo),
        Kind::Collar => checked!(store payload collar_of),
        Kind::Operational => checked!(store payload operational_of),
        Kind::Add => followed!(store payload add_of add),
        Kind::AddMpid => followed!(store payload add_mpid_of add_mpid),
        Kind::Execute => followed!(store payload execute_of execute),
        Kind::ExecutePrice => followed!(store payload execute_price_of execute_price),
        Kind::Cancel => followed!(store payload cancel_of cancel),
        Kind::Delete => followed!(store payload delete_of delete),
        Kind::Replace => followed!(store payload replace_of replace),
        Kind::Trade => followed!(store payload trade_of non_cross_trade),
        Kind::Cross => followed!(store payload cross_of cross),
        Kind::Broken => followed!(store payload broken_of broken),
        Kind::Imbalance => checked!(store payload imbalance_of),
        Kind::Retail => checked!(store payload retail_of),
    }
}
