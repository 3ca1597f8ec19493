//! What a core shows of a request or of a connection, as the events of an exchange ask for it.

ghost use Rattle.std.specs.Prelude.{◌≡◌, true, false, Some};
ghost use Rattle.my_pool_core.specs.Owners.{Free, Token, is_lease, number_in, token};

use my_pool_core::Core;
use my_pool_parts::{Place, Standing};

/// Whether the request of an age has no connection.
pub fn is_free(core: &Core, age: u64) -> bool
    ensures { result ≡ true → token age core.now ≡ Some Free }
{
    match core.live_request(age) {
        Some(request) => match request.standing {
            Standing::Asks | Standing::Waits | Standing::Woken => true,
            Standing::Dials(_) | Standing::Checks(_) => false,
        },
        None => false,
    }
}

/// Whether the request of an age has the connection of a number.
pub fn holds(core: &Core, age: u64, number: u64) -> bool
    ensures { result ≡ true → (t : Token) × (token age core.now ≡ Some t) × (number_in t ≡ Some number) }
{
    match core.live_request(age) {
        Some(request) => match request.standing {
            Standing::Asks | Standing::Waits | Standing::Woken => false,
            Standing::Dials(held) => held == number,
            Standing::Checks(held) => held == number,
        },
        None => false,
    }
}

/// Whether the connection of a number is leased.
pub fn is_leased(core: &Core, number: u64) -> bool
    ensures { result ≡ true → is_lease number core.now ≡ true }
{
    match core.connection(number) {
        Some(connection) => matches!(connection.place, Place::Leased),
        None => false,
    }
}
