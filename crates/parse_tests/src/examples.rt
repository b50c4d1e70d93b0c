//! Examples of what a parser is to answer. The answers are written by hand from the productions, and the definitions compute
//! them.

ghost use Rattle.cc_grammar.specs.ExampleTrees.{NearestIf, Rows, Voids};
ghost use Rattle.cc_grammar.specs.Examples.{declarations, expressions, items, nesting, statements};
ghost use Rattle.cc_grammar.specs.ExamplesHold.{Hold};

fn faults_of_texts()
    ensures items { Hold items }
    ensures declarations { Hold declarations }
    ensures statements { Hold statements }
    ensures expressions { Hold expressions }
{}

fn nesting_of_texts()
    ensures { Hold nesting }
{}

fn trees_of_texts()
    ensures rows { Rows }
    ensures nearest_if { NearestIf }
    ensures voids { Voids }
{}

#[test]
fn examples() {
    faults_of_texts();
    nesting_of_texts();
    trees_of_texts();
}
