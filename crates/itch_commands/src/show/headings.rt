//! The names of the columns of comma-separated values.
ghost use Rattle.std.specs.Prelude.{◌≡◌, ◌<◌, length};
ghost use Rattle.itch_commands.specs.Outputs.{WritesText};
ghost use Rattle.itch_commands.specs.Rows.{heading};

use crate::fault::ToolFault;
use crate::writing::write_text;
use itch_frame::CountedWrite;

/// Writes the line with the names of the columns of a type's messages.
pub fn write_heading<W: CountedWrite>(kind: u8, out: &mut W) -> Result<(), ToolFault>
    ensures { WritesText W.contents W.failures (heading kind) out.old result out.new }
{
    write_text(heading(kind), out)
}

// The line. A message that is not decoded has its type and its length alone.
#[tactic(auto, unfolding(itch_codec::specs::Shown::fields))]
fn heading(kind: u8) -> &'static [u8]
    ensures text { result.now ≡ heading kind }
    ensures short { length result.now < 65538 }
{
    match kind {
        b'S' => SYSTEM_EVENT,
        b'R' => STOCK_DIRECTORY,
        b'H' => TRADING_ACTION,
        b'Y' => REG_SHO,
        b'h' => OPERATIONAL_HALT,
        b'L' => PARTICIPANT_POSITION,
        b'A' => ADD_ORDER,
        b'F' => ATTRIBUTED_ADD_ORDER,
        b'E' => ORDER_EXECUTED,
        b'C' => ORDER_EXECUTED_WITH_PRICE,
        b'X' => ORDER_CANCEL,
        b'D' => ORDER_DELETE,
        b'U' => ORDER_REPLACE,
        b'P' => TRADE,
        b'Q' => CROSS_TRADE,
        b'B' => BROKEN_TRADE,
        b'G' => END_OF_SNAPSHOT,
        _ => UNDECODED,
    }
}

const SYSTEM_EVENT: &[u8] = b"number,type,stock_locate,tracking_number,time,ns,event_code\n";

const STOCK_DIRECTORY: &[u8] =
    b"number,type,stock_locate,tracking_number,time,ns,stock,market_category,financial_status_indicator,\
    round_lot_size,round_lots_only,issue_classification,issue_sub_type,authenticity,\
    short_sale_threshold_indicator,ipo_flag,luld_reference_price_tier,etp_flag,etp_leverage_factor,\
    inverse_indicator\n";

const TRADING_ACTION: &[u8] =
    b"number,type,stock_locate,tracking_number,time,ns,stock,trading_state,reserved,reason\n";

const REG_SHO: &[u8] = b"number,type,stock_locate,tracking_number,time,ns,stock,reg_sho_action\n";

const OPERATIONAL_HALT: &[u8] =
    b"number,type,stock_locate,tracking_number,time,ns,stock,market_code,operational_halt_action\n";

const PARTICIPANT_POSITION: &[u8] =
    b"number,type,stock_locate,tracking_number,time,ns,mpid,stock,primary_market_maker,\
    market_maker_mode,market_participant_state\n";

const ADD_ORDER: &[u8] =
    b"number,type,stock_locate,tracking_number,time,ns,order_reference_number,buy_sell_indicator,\
    shares,stock,price\n";

const ATTRIBUTED_ADD_ORDER: &[u8] =
    b"number,type,stock_locate,tracking_number,time,ns,order_reference_number,buy_sell_indicator,\
    shares,stock,price,attribution\n";

const ORDER_EXECUTED: &[u8] =
    b"number,type,stock_locate,tracking_number,time,ns,order_reference_number,executed_shares,\
    match_number\n";

const ORDER_EXECUTED_WITH_PRICE: &[u8] =
    b"number,type,stock_locate,tracking_number,time,ns,order_reference_number,executed_shares,\
    match_number,printable,execution_price\n";

const ORDER_CANCEL: &[u8] =
    b"number,type,stock_locate,tracking_number,time,ns,order_reference_number,cancelled_shares\n";

const ORDER_DELETE: &[u8] =
    b"number,type,stock_locate,tracking_number,time,ns,order_reference_number\n";

const ORDER_REPLACE: &[u8] =
    b"number,type,stock_locate,tracking_number,time,ns,original_order_reference_number,\
    new_order_reference_number,shares,price\n";

const TRADE: &[u8] =
    b"number,type,stock_locate,tracking_number,time,ns,order_reference_number,buy_sell_indicator,\
    shares,stock,price,match_number\n";

const CROSS_TRADE: &[u8] =
    b"number,type,stock_locate,tracking_number,time,ns,shares,stock,cross_price,match_number,\
    cross_type\n";

const BROKEN_TRADE: &[u8] = b"number,type,stock_locate,tracking_number,time,ns,match_number\n";

const END_OF_SNAPSHOT: &[u8] = b"number,type,sequence_number\n";

const UNDECODED: &[u8] = b"number,type,length\n";
