//! The report of a file, by what it makes.
ghost use Rattle.std.specs.Prelude.{◌≡◌, ◌++◌, IfOk, OnOk};
ghost use Rattle.std.specs.List.{All, flat_map};
ghost use Rattle.byte_strings.specs.Bytes.{AreBytes};
ghost use Rattle.byte_strings.specs.Extending.{Extends};
ghost use Rattle.binaryfile.specs.Entries.{Contents};
ghost use Rattle.itch_table.specs.After.{outcomes};
ghost use Rattle.file_replay.specs.Files.{IsFileSummary};
ghost use Rattle.itch_engine.specs.Report.{machine_lines, report_of_file, refused_count};
ghost use Rattle.itch_engine.specs.Tallies.{IsTally};

use crate::report::messages::{Tally, put_file_line, put_refused_lines, tally_of};
use file_replay::FileSummary;
use itch_table::Side;
use std::alloc::{AllocError, Allocator};
use stock_machine::Stock;
use stock_text::put_stock;

/// The report of a file, and how many of its messages were refused.
#[derive(Drop)]
pub(crate) struct Report<A: Allocator> {
    pub text: Vec<u8, A>,
    pub refused: u32,
}

// Adds the lines of a stock.
fn put_stock_of<A: Allocator + Copy>(
    alloc: A,
    text: &mut Vec<u8, A>,
    stock: &Stock<A>,
) -> Result<(), AllocError>
    ensures { Extends text.old text.new (machine_lines stock.now) result }
{
    let bids = stock.levels(alloc, Side::Buy)?;
    let asks = stock.levels(alloc, Side::Sell)?;
    put_stock(
        text,
        stock.locate(),
        &stock.status(),
        &bids,
        &asks,
        stock.totals(),
    )
}

// Adds the lines of these stocks.
fn put_stocks<A: Allocator + Copy>(
    alloc: A,
    text: &mut Vec<u8, A>,
    stocks: &[Stock<A>],
) -> Result<(), AllocError>
    ensures { Extends text.old text.new (flat_map machine_lines stocks.now) result }
{
    for stock in stocks {
        put_stock_of(alloc, text, stock)?;
    }
    Ok(())
}

// The lines of a report.
#[tactic(auto, unfolding(crate::specs::Report::report_of_day))]
fn report_text<A: Allocator + Copy>(
    alloc: A,
    file: &FileSummary<A>,
    tally: Tally,
) -> Result<Vec<u8, A>, AllocError>
    ensures { IfOk result (λ text. (contents : Contents) → All AreBytes contents.payloads
        → IsFileSummary contents file.now → IsTally (outcomes contents.payloads) tally
        → text.items ≡ report_of_file contents) }
{
    let mut text = Vec::new(alloc);
    put_refused_lines(&mut text, &file.summary.refused)?;
    put_file_line(&mut text, tally, file.marked, file.tail, file.summary.event)?;
    put_stocks(alloc, &mut text, &file.summary.stocks)?;
    Ok(text)
}

/// The report of a file, by what it makes.
#[tactic(auto, unfolding(crate::specs::Report::refused_count))]
pub(crate) fn report_of<A: Allocator + Copy>(
    alloc: A,
    file: &FileSummary<A>,
) -> Result<Report<A>, AllocError>
    requires { (contents : Contents) × IsFileSummary contents file.now }
    ensures text { IfOk result (λ report. (contents : Contents) → All AreBytes contents.payloads
        → IsFileSummary contents file.now → report.text.items ≡ report_of_file contents) }
    ensures refused { IfOk result (λ report. (contents : Contents)
        → IsFileSummary contents file.now → report.refused ≡ refused_count contents.payloads) }
{
    let tally = tally_of(file);
    Ok(Report {
        text: report_text(alloc, file, tally)?,
        refused: tally.refused,
    })
}
