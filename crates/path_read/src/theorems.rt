//! The laws of declaration texts. The functions do nothing: their `ensures` clauses are the laws.

ghost use Rattle.path_read.specs.Once.{EachTextDeclaresOnce};
ghost use Rattle.path_read.specs.Computed.{EachComputedDeclarationIsDeclared};

/// A text is the text of at most one declaration.
pub fn each_text_declares_once()
    ensures { EachTextDeclaresOnce }
{}

/// What a proof computes of a text is what the text declares.
pub fn each_computed_declaration_is_declared()
    ensures { EachComputedDeclarationIsDeclared }
{}
