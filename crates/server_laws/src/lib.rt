//! What follows of a scripted server's history: what a client of the grammar reads of it, and which logins it admits.
//! Each function's clause is the law.
#![tactic(auto)]

ghost use Rattle.std.specs.Prelude.{◌≡◌, ℕ, List, ◌∷◌, None, Some, false, true};
ghost use Rattle.sha1.specs.Sha1.{sha1};
ghost use Rattle.my_frame.specs.Reading.{FindsExactly};
ghost use Rattle.my_handshake.specs.declared.login.HandshakeResponse.{HandshakeResponse as AnyResponse};
ghost use Rattle.my_handshake.specs.Login.{response_bytes};
ghost use Rattle.my_grammar.specs.declared.login.Login.{Login as AnyLogin};
ghost use Rattle.my_grammar.specs.Scramble.{password_answer};
ghost use Rattle.my_grammar.specs.Talk.{Talk};
ghost use Rattle.my_server.specs.ClientLogin.{IsLogin, IsSentResponse, login_at, login_of};
ghost use Rattle.my_server.specs.History.{History, Stands};
ghost use Rattle.my_server.specs.Machine.{Served, knows_password};
ghost use Rattle.server_laws.specs.Conversation.{IsClient, IsGreeted, IsHeard, IsTyped};

use my_reply::laws::written_packets_are_read;

/// What a client of the grammar reads, whose login was read: of each core and each history for which it stands, the
/// grammar cuts the bytes sent and owed into the opening and one exchange for each command, and nothing is left over.
/// The opening ends with an OK exactly where the formula of native passwords admits the login, else with the ERR 1045.
/// Each exchange holds what the script says to its command, set by set, columns and cells included.
///
/// The client deprecates EOF packets; to others, ends are EOF packets, which the grammar doesn't read.
pub fn each_conversation()
    ensures { (s : Served) (h : History) (login : AnyLogin) (limit : ℕ) → Stands s h → IsTyped h.script
        → IsClient login limit h → IsHeard login limit s h }
{
    written_packets_are_read();
}

/// What a client of the grammar reads before its login was read: of each core and each history for which it stands, the
/// grammar cuts the bytes sent and owed into the greeting alone, and no byte is left over.
pub fn each_greeting()
    ensures { (s : Served) (h : History) (login : AnyLogin) (talks : List Talk) → Stands s h → IsTyped h.script
        → h.login ≡ None → IsGreeted login talks s h }
{
    written_packets_are_read();
}

/// A payload is at most one login, which is what reading gives.
pub fn login_is_read()
    ensures { FindsExactly login_at IsLogin }
{}

/// A response to a greeting that `put_response` writes is read as a login, with its capabilities, its user and its
/// scramble, under the premises that `IsSentResponse` names.
pub fn responses_are_read()
    ensures { (r : AnyResponse) → IsSentResponse r → login_at (response_bytes r) ≡ Some (login_of r) }
{}

/// The answer of the grammar's client to a nonce of the native plugin is that of a client who knows the password, where the
/// script has this password's SHA1(SHA1(password)); and where neither has a password.
pub fn answers_are_known()
    ensures password { (b : ℕ) (bytes nonce : List ℕ) → let password = b ∷ bytes in
        knows_password (Some (sha1 (sha1 password))) nonce (password_answer false (Some password) nonce) ≡ true }
    ensures none { (nonce : List ℕ) → knows_password None nonce (password_answer false None nonce) ≡ true }
{}
