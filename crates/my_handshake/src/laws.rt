//! Laws of the packets by which a connection is made. Each function's clause is the law; it does nothing.

ghost use Rattle.std.specs.Prelude.{List};
ghost use Rattle.my_frame.specs.Reading.{FindsExactly};
ghost use Rattle.my_handshake.specs.Attributes.{IsInKeyOrder, put_in_order};
ghost use Rattle.my_handshake.specs.Greeting.{IsGreeting, greeting_at};
ghost use Rattle.my_handshake.specs.SwitchRequest.{IsMoreData, IsSwitch, more_data_at, switch_at};

use crate::attributes::Attribute;

/// A pair is put so that the keys stay in byte order.
pub fn attributes_stay_in_order()
    ensures { (pairs : List Attribute) (pair : Attribute)
        → IsInKeyOrder pairs → IsInKeyOrder (put_in_order pairs pair) }
{}

/// A payload is at most one greeting, which is what reading gives.
pub fn greeting_is_read()
    ensures { FindsExactly greeting_at IsGreeting }
{}

/// A payload is at most one request to switch the authentication plugin, and at most one packet of
/// more data of the plugin; reading gives them.
pub fn switch_is_read()
    ensures switch { FindsExactly switch_at IsSwitch }
    ensures more_data { FindsExactly more_data_at IsMoreData }
{}
