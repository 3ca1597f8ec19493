//! Laws of lending. Each function's clause is the law; it does nothing.

ghost use Rattle.my_files.specs.Lending.{OpensNoOther};
ghost use Rattle.my_files.specs.Tried.{AreTried};

/// Whatever a server asks for, each name that a file system is handed is of the list, if the earlier ones were.
pub fn no_other_file_is_opened()
    ensures { OpensNoOther }
{}

/// A listed name may be opened; a body that opens another one is refuted.
pub fn wrong_answers_are_refuted()
    ensures { AreTried }
{}
