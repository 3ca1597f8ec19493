//! Laws of the chain. Each function's clause is the law; it does nothing.

ghost use Rattle.my_auth.specs.Laws.{ChainsEnd, KeepsThePassword, KnowsItsNames};

/// A plugin is found by its own name.
pub fn plugins_have_names()
    ensures { KnowsItsNames }
{}

/// Where neither the options nor the link allow it, the password isn't sent as it is: each answer is a scramble of it, or empty.
pub fn passwords_are_scrambled()
    ensures { KeepsThePassword }
{}

/// Each answer, and each wait, leaves less that can follow: a chain has at most one switch and one more answer.
pub fn chains_end()
    ensures { ChainsEnd }
{}
