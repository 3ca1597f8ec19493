//! Laws on what the calls of results and streams leave. Each function's clause is the law; it does nothing.
#![tactic(auto)]

ghost use Rattle.result_laws.specs.Closing.{DropCloses, ItemCloses, NextCloses, SetCloses, StreamCloses};
ghost use Rattle.result_laws.specs.Tried.{ClosingIsTried};

use my_link::BlockingLink;
use my_rows::Gather;
use my_value::FromRow;

/// A call that reads a row, drops the rest of an answer or takes a set for a stream closes the connection exactly where it
/// returns an error that closes; else the connection is as open as it was. No call is open then.
pub fn calls_close<L: BlockingLink>()
    ensures next { NextCloses L.looks }
    ensures drop { DropCloses L.looks }
    ensures stream { StreamCloses L.looks }
{}

/// So does a call that converts one row, or gathers a set. A row that doesn't convert leaves the connection as it was, and so
/// does memory that runs out beside a call.
pub fn reads_close<L: BlockingLink, T: FromRow, G: Gather<T>>()
    ensures item { ItemCloses L.looks T.row_converts T.row_becomes }
    ensures set { SetCloses L.looks T.row_converts T.row_becomes G.takes }
{}

/// These definitions accept right values, and refute wrong ones: a connection that a server's error closed, or a call that
/// was done, and one that is open after memory ran out in a call.
pub fn wrong_values_are_refuted<L>()
    ensures { ClosingIsTried L }
{}
