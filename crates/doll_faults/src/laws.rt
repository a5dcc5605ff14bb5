//! What is told of a set is one: laws.

ghost use Rattle.doll_faults.specs.Lists.{LintFaultsAreOneList, TypeFaultsAreOneList};

/// There is one list that has exactly the faults of a set's types, each once, in their order.
pub fn type_faults_are_one_list()
    ensures { TypeFaultsAreOneList }
{}

/// There is one that has those of its lint.
pub fn lint_faults_are_one_list()
    ensures { LintFaultsAreOneList }
{}
