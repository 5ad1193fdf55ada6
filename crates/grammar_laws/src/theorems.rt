ghost use Rattle.grammar_laws.specs.Expressions.{TreesAreOfGrammar, TreesAreRead, TreeFaultsAreFirst, TreesAreUnique};

/// The laws of reading an expression, which its clauses say. It does nothing.
pub fn expressions()
    ensures read { TreesAreOfGrammar }
    ensures only { TreesAreRead }
    ensures refused { TreeFaultsAreFirst }
    ensures unique { TreesAreUnique }
{}
