//! What follows of the chain of packets in which a client shows a server who it is, each law a function's clause: what a
//! client sends in it at most, which chains no client does, and which it does.
#![tactic(auto)]

ghost use Rattle.auth_laws.specs.Chains.{IsShort, PasswordsStay};
ghost use Rattle.auth_laws.specs.Exchanges.{AnswersByScrambles, AnswersTwice, SaysNoMore};
ghost use Rattle.auth_laws.specs.Right.{CachedLogin, SwitchedLogin};
ghost use Rattle.auth_laws.specs.Wrong.{NoClearPassword, NoEarlierNonce, NoEmptyScramble, NoFullPassword, NoGoingOn, NoSecondSwitch};

/// No chain has one of these: a second switch that is answered (`switch`); the password as it is, where the options don't
/// allow it (`clear`), or where the link doesn't stay on this machine (`full`); an answer to a switch with another nonce
/// than that one's (`nonce`); a scramble of an empty password (`empty`); an answer once an OK or an ERR has to follow
/// (`decided`).
pub fn wrong_chains_are_refuted()
    ensures switch { NoSecondSwitch }
    ensures clear { NoClearPassword }
    ensures full { NoFullPassword }
    ensures nonce { NoEarlierNonce }
    ensures empty { NoEmptyScramble }
    ensures decided { NoGoingOn }
{}

/// These are chains: a switch to the native plugin that is answered, and an OK; a hash that the server had, and an OK.
pub fn right_chains_are_done()
    ensures switched { SwitchedLogin }
    ensures cached { CachedLogin }
{}

/// A client sends at most two payloads in a chain (`short`), and where neither the options nor the link allow the password
/// itself, each is a scramble of it, or empty (`passwords`).
pub fn chains_are_short()
    ensures short { IsShort }
    ensures passwords { PasswordsStay }
{}

/// In an exchange that fits, a login or a change of user, the client says its first packet and then its answers, and nothing else
/// (`alone`): at most two (`short`), each a scramble of the password or empty where neither the options nor the link allow the
/// password itself (`passwords`).
pub fn exchanges_keep_passwords()
    ensures alone { SaysNoMore }
    ensures short { AnswersTwice }
    ensures passwords { AnswersByScrambles }
{}
