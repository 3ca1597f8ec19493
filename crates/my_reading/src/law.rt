//! Laws of what calls come to. Each function's clause is the law; it does nothing.

ghost use Rattle.std.specs.Prelude.{◌≡◌, ◌⊎◌, ◌<◌, ◌≤◌, ℕ, List, ◌∷◌, Some, false, length};
ghost use Rattle.std.specs.List.{Contains};
ghost use Rattle.my_statements.specs.Cache.{Cached, Held};
ghost use Rattle.my_grammar.specs.declared.spot.Terms.{Terms as AnyTerms};
ghost use Rattle.my_grammar.specs.Cut.{kind_of};
ghost use Rattle.my_grammar.specs.Kinds.{kind_there};
ghost use Rattle.my_grammar.specs.FitReplies.{IsRefusal};
ghost use Rattle.my_grammar.specs.Prepares.{Unanswered};
ghost use Rattle.my_grammar.specs.Talk.{Fits, Preparing, Talk, context_of, described, origin, packets_of};
ghost use Rattle.my_grammar.specs.declared.spot.Spot.TheVariants.{Rows};
ghost use Rattle.my_reading.specs.Facts.{facts_by};
ghost use Rattle.my_reading.specs.declared.facts.Facts.{Facts as AnyFacts};
ghost use Rattle.my_reading.specs.Leads.{LeadingStays, LeadsToCourse, StepStays};
ghost use Rattle.my_reading.specs.Quiet.{TellsNothing};
ghost use Rattle.my_reading.specs.Statements.{is_held, leaving_for, with_new};

/// A step of a call that goes on does the same once more bytes were sent or received, and so do the steps that lead
/// somewhere.
pub fn steps_stay()
    ensures step { StepStays }
    ensures leading { LeadingStays }
{}

/// Where the steps of a call lead to a stop, that is what the call comes to.
pub fn steps_lead_to_course()
    ensures { LeadsToCourse }
{}

/// While rows are read, the columns that a client knows are those that the exchange describes, as many as its context
/// counts. So to a client a payload is what it is in the exchange.
pub fn columns_are_known()
    ensures known { (t : Talk) (f : AnyFacts) → Fits t → (context_of t).spot ≡ Rows
        → (facts_by (packets_of t) f).columns ≡ described t }
    ensures all { (t : Talk) → Fits t → (context_of t).spot ≡ Rows → (context_of t).columns ≡ length (described t) }
    ensures kind { (t : Talk) (f : AnyFacts) (p : List ℕ) → Fits t
        → kind_there (context_of t) (facts_by (packets_of t) f).columns p ≡ kind_of t p }
{}

/// The reply to a statement to prepare leaves all facts as they were but the count of payloads and what the newest reply said,
/// unless it is an ERR.
pub fn prepare_tells_nothing()
    ensures told { (terms : AnyTerms) (command : List ℕ) (t : Talk) → origin t ≡ Preparing terms command Unanswered
        → IsRefusal (packets_of t) ⊎ TellsNothing (packets_of t) }
{}

/// A statement that is put in a cache is the first one there, unless the cache keeps none, or has its text or its id already.
pub fn new_statement_is_first()
    ensures { (h : Held) (c : Cached) → is_held h c ≡ false → 0 < c.capacity
        → (rest : List Held) × ((with_new h c).list ≡ h ∷ rest) }
{}

/// Each statement of a cache is in it after another was put, but the one that had to go for it.
pub fn one_statement_leaves()
    ensures { (h s : Held) (c : Cached) → length c.list ≤ c.capacity → Contains c.list s
        → Contains (with_new h c).list s ⊎ (leaving_for h c ≡ Some s.stmt.id) }
{}
