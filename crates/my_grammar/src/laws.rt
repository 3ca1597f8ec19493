//! Laws of exchanges and of the bytes that hold them. Each function's clause is the law; it does nothing.

ghost use Rattle.std.specs.Prelude.{◌≡◌, ◌≤◌, ◌⊎◌, ℕ, List, Option, ◌∷◌, ◌++◌, length, map, true, false};
ghost use Rattle.my_flags.specs.Sets.{deprecates_eof};
ghost use Rattle.my_frame.specs.FrontLaws.{AreBytes};
ghost use Rattle.my_frame.specs.Chunks.{chunks, number_after_payload};
ghost use Rattle.my_reply.specs.declared.column.Column.{Column as AnyColumn};
ghost use Rattle.my_grammar.specs.declared.login.Login.{Login as AnyLogin};
ghost use Rattle.my_grammar.specs.declared.spot.Kind.{Kind as AnyKind};
ghost use Rattle.my_grammar.specs.declared.spot.Terms.{Terms as AnyTerms};
ghost use Rattle.my_grammar.specs.Contexts.{is_bad};
ghost use Rattle.my_grammar.specs.FitReplies.{IsRefusal, IsWholeReply};
ghost use Rattle.my_grammar.specs.Prepares.{Unanswered};
ghost use Rattle.my_grammar.specs.Sets.{Asking, ByStatement, NoSets, Sets};
ghost use Rattle.my_grammar.specs.Talk.{Fits, Preparing, Queried, Talk, Turn, client_bytes, commands_bytes, commands_in, limit_of, number_of, origin, packets_of, server_bytes, turns};
ghost use Rattle.my_grammar.specs.Growth.{Grows, Reads};
ghost use Rattle.my_grammar.specs.Cut.{cut, is_over, kind_of, onto, read_from};
ghost use Rattle.my_grammar.specs.CutLaws.{IsCut, IsRead, RestGoesOn, RestStays};

/// A payload within the limit that fits where an exchange awaits one makes it an exchange with one payload more, in each
/// reading: its place, its payloads, both sides' turns, and that it is as the protocol has it.
pub fn each_payload_grows()
    ensures { (t : Talk) (p : List ℕ) → is_bad (kind_of t p) ≡ false → length p ≤ limit_of t → Fits t
        → Grows t (kind_of t p) p }
{}

/// What a payload and the client's answer to it do to the running number and to each side's bytes.
pub fn each_payload_counts()
    ensures { (login : AnyLogin) (secret : Option (List ℕ)) (k : AnyKind) (p : List ℕ) (ts : List Turn)
        → Reads login secret k p ts }
{}

/// What a client sends in an exchange that it begins: its commands, each from the sequence id 0. Before a statement that is executed go the
/// parts of long values that are sent ahead of it, and the number of the next packet is the one after the statement.
pub fn commands_are_sent()
    ensures begun { (t : Talk) → client_bytes (turns (origin t)) ≡ commands_bytes (commands_in t) }
    ensures kept { (t : Talk) → commands_in (origin t) ≡ commands_in t }
    ensures queried { (terms : AnyTerms) (c : List ℕ) (x : Sets)
        → client_bytes (turns (Queried terms c x)) ≡ commands_bytes (commands_in (Queried terms c x)) }
    ensures executed { (terms : AnyTerms) (c : List ℕ) (ahead : List (List ℕ)) (known : List AnyColumn)
        → client_bytes (turns (Queried terms c (NoSets (ByStatement ahead known))))
        ≡ commands_bytes ahead ++ chunks c 0 }
    ensures number { (terms : AnyTerms) (c : List ℕ) (asking : Asking)
        → number_of (turns (Queried terms c (NoSets asking))) ≡ number_after_payload c 0 }
{}

/// What was read of an exchange is found again in its bytes: reading from its beginning comes to the same place, whatever follows.
pub fn exchange_is_reached()
    ensures { (t : Talk) (rest : List ℕ) → Fits t
        → read_from (origin t) (server_bytes (turns t) ++ rest) ≡ read_from t rest }
{}

/// The bytes of an exchange that is over are cut off as that exchange, and what follows is cut by the next ones.
pub fn whole_exchange_is_cut()
    ensures { (t : Talk) (ts : List Talk) (rest : List ℕ) → Fits t → is_over t ≡ true
        → cut (origin t ∷ ts) (server_bytes (turns t) ++ rest) ≡ onto t (cut ts rest) }
{}

/// What is read of an exchange is in the bytes, and the reading stops only where nothing can be read.
pub fn reading_is_sound()
    ensures { (t : Talk) (bytes : List ℕ) → AreBytes bytes → Fits t → IsRead t bytes (read_from t bytes) }
{}

/// The exchanges that bytes are cut into are as the protocol has them, in order, and spell the bytes up to the rest.
pub fn cutting_is_sound()
    ensures { (ts : List Talk) (bytes : List ℕ) → AreBytes bytes → IsCut ts bytes (cut (map origin ts) bytes) }
{}

/// However bytes are cut into exchanges, what was read stays when more bytes come, and so does what can't be read; and further
/// exchanges are cut after those that are over.
pub fn cutting_stays()
    ensures stays { (ts : List Talk) (bytes more : List ℕ)
        → RestStays more (cut ts bytes).talks (cut ts bytes).rest (cut ts (bytes ++ more)) }
    ensures goes_on { (ts us : List Talk) (bytes : List ℕ)
        → RestGoesOn us (cut ts bytes).talks (cut ts bytes).rest (cut (ts ++ us) bytes) }
{}

/// The reply to a statement to prepare, once it is over, is an ERR alone, or a head with exactly as many parameters and columns as it
/// says, each part with its EOF where the server doesn't deprecate it.
pub fn prepare_is_whole()
    ensures whole { (terms : AnyTerms) (command : List ℕ) (t : Talk) → origin t ≡ Preparing terms command Unanswered
        → Fits t → is_over t ≡ true
        → IsRefusal (packets_of t) ⊎ IsWholeReply (deprecates_eof terms.kept) (packets_of t) }
{}
