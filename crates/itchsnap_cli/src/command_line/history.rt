//! The words of `show --history`.
ghost use Rattle.std.specs.Prelude.{◌≡◌};
ghost use Rattle.itchsnap_cli.specs.Histories.{request_from};

use crate::command_line::fault::{Fault, usage_fault};
use crate::command_line::request::{
    read_filters, read_kind, read_order_form, read_path, read_show_form,
};
use clap::ArgMatches;
use itch_commands::{Command, FileKind, Filters, Limit, OrderForm, Request, ShowForm};
use std::alloc::Global;

/// The form of the messages in a history.
#[derive(Clone, Copy, Debug, PartialEq, Eq)]
pub enum HistoryForm {
    /// Messages.
    Messages(ShowForm),
    /// Messages with the orders behind them.
    Orders(OrderForm),
}

/// A request for the complete history of an order.
#[derive(Clone, Copy, Debug, PartialEq, Eq)]
pub struct HistoryArguments<'a> {
    /// The path of the day file, which is read twice.
    pub file: &'a str,
    /// The requested part of it.
    pub limit: Limit,
    pub form: HistoryForm,
    /// The filters, in which the order has its number on the command line.
    pub filters: Filters<'a>,
    /// The same number.
    pub reference: u64,
    /// Whether standard error shows how much was read so far.
    pub progress: bool,
}

impl<'a> HistoryArguments<'a> {
    /// Returns the request for the messages about the order that has this reference number at first.
    pub fn request(&self, first: u64) -> Request<'a>
        ensures { result ≡ request_from self.now first }
    {
        let filters = Filters {
            reference: Some(first),
            ..self.filters
        };
        let command = match self.form {
            HistoryForm::Messages(form) => Command::Show {
                kind: FileKind::Day(self.limit),
                form,
                filters,
            },
            HistoryForm::Orders(form) => Command::ShowOrders {
                limit: self.limit,
                form,
                filters,
            },
        };
        Request::One {
            file: Some(self.file),
            command,
        }
    }
}

/// Reads the options of `show --history`.
///
/// An error is a usage fault or out of memory: its kind tells which.
pub fn read_history<'a>(
    alloc: Global,
    options: &ArgMatches<'a>,
) -> Result<HistoryArguments<'a>, Fault> {
    let FileKind::Day(limit) = read_kind(alloc, options)? else {
        return Err(usage_fault(
            alloc,
            "the argument '--history' cannot be used with '--snapshot'",
        )?);
    };
    let filters = read_filters(alloc, options)?;
    let Some(reference) = filters.reference else {
        return Err(usage_fault(alloc, "--history needs --reference, a number of the order")?);
    };
    let Some(file) = read_path(options, "FILE") else {
        return Err(usage_fault(
            alloc,
            "--history reads its file twice: name a file, not standard input",
        )?);
    };
    Ok(HistoryArguments {
        file,
        limit,
        form: read_history_form(alloc, options, filters.types)?,
        filters,
        reference,
        progress: options.get_flag("progress"),
    })
}

fn read_history_form<'a>(
    alloc: Global,
    options: &ArgMatches<'a>,
    types: Option<&str>,
) -> Result<HistoryForm, Fault> {
    if options.get_flag("orders") {
        Ok(HistoryForm::Orders(read_order_form(alloc, options)?))
    } else {
        Ok(HistoryForm::Messages(read_show_form(alloc, options, types)?))
    }
}
