//! Laws of the packets that a client sends. Each function's clause is the law; it does nothing.

ghost use Rattle.std.specs.Prelude.{◌≡◌, List, length};
ghost use Rattle.my_command.specs.Client.Replica.{block_length, gtid_block};
ghost use Rattle.my_command.specs.Client.Transactions.{Transactions};

/// How long the named transactions of a `DumpGtid` are when written.
pub fn gtid_block_has_this_length()
    ensures { (sids : List Transactions) → length (gtid_block sids) ≡ block_length sids }
{}
