//! Transactions of connections, as they follow from the lines of a run.
ghost use Rattle.std.specs.Prelude.{◌≡◌};
ghost use Rattle.my_script.specs.Transactions.{
  after_begin,
  after_beginning,
  after_cancel,
  after_ending,
  after_nesting,
  after_poll,
  is_begun,
  transaction_after,
};

use crate::{Outcome, Step};

/// What the lines so far made of a transaction at a connection.
#[derive(Clone, Copy, PartialEq, Eq)]
pub enum Transaction {
    /// None is there.
    Without,
    /// One begins.
    Beginning,
    /// It is there.
    There,
    /// It is there, and a second one is to begin.
    Nesting,
    /// It is there, and is committed or rolled back.
    Ending,
}

fn after_beginning(outcome: &Outcome) -> Transaction
    ensures { result ≡ after_beginning outcome.now }
{
    match outcome {
        Outcome::Done => Transaction::There,
        Outcome::Pending => Transaction::Beginning,
        _ => Transaction::Without,
    }
}

fn after_nesting(outcome: &Outcome) -> Transaction
    ensures { result ≡ after_nesting outcome.now }
{
    match outcome {
        Outcome::Pending => Transaction::Nesting,
        _ => Transaction::There,
    }
}

fn after_ending(outcome: &Outcome) -> Transaction
    ensures { result ≡ after_ending outcome.now }
{
    match outcome {
        Outcome::Pending => Transaction::Ending,
        _ => Transaction::Without,
    }
}

fn after_begin(transaction: Transaction, outcome: &Outcome) -> Transaction
    ensures { result ≡ after_begin transaction outcome.now }
{
    match transaction {
        Transaction::Without => after_beginning(outcome),
        _ => after_nesting(outcome),
    }
}

fn after_poll(transaction: Transaction, outcome: &Outcome) -> Transaction
    ensures { result ≡ after_poll transaction outcome.now }
{
    match transaction {
        Transaction::Beginning => after_beginning(outcome),
        Transaction::Nesting => after_nesting(outcome),
        Transaction::Ending => after_ending(outcome),
        Transaction::Without | Transaction::There => transaction,
    }
}

fn after_cancel(transaction: Transaction) -> Transaction
    ensures { result ≡ after_cancel transaction }
{
    match transaction {
        Transaction::Without | Transaction::Beginning => Transaction::Without,
        Transaction::There | Transaction::Nesting | Transaction::Ending => Transaction::There,
    }
}

/// What a step makes of a transaction at the number that it names, where the step isn't refused.
pub fn transaction_after(transaction: Transaction, step: &Step, outcome: &Outcome) -> Transaction
    ensures { result ≡ transaction_after transaction step.now outcome.now }
{
    match step {
        Step::Begin(_, _) => after_begin(transaction, outcome),
        Step::Commit(_) | Step::Rollback(_) => after_ending(outcome),
        Step::ForgetTransaction(_) => Transaction::Without,
        Step::Poll(_) => after_poll(transaction, outcome),
        Step::Cancel(_) => after_cancel(transaction),
        _ => transaction,
    }
}

/// Whether a transaction is there that neither begins nor ends.
pub fn is_begun(transaction: Transaction) -> bool
    ensures { result ≡ is_begun transaction }
{
    match transaction {
        Transaction::There => true,
        _ => false,
    }
}
