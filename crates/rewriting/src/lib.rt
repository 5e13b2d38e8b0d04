// Term rewriting along definitional trees. There is no engine here: each function stands for the theorem that its contract says, and answers nothing.
#![tactic(auto)]

ghost use Rattle.rewriting.specs.Promises.{MovesAreSteps, Normalises, OneValue, StepsKeepSorts, Progress, FixedTreeExact, BoundsSuffice, GrowsFixedTree, TellsComplete};
ghost use Rattle.rewriting.specs.Examples.{Worked, Judged, MeetHolds};

// The strategy's move is a step at the position that it tells, by the cause that it tells.
#[tactic(auto, using(crate::proofs::Stepping::moves_are_steps))]
pub fn moves_are_steps()
    ensures { MovesAreSteps }
{}

// The strategy reaches every value that any steps lead to.
#[tactic(auto, using(crate::proofs::Normalising::normalises))]
pub fn normalises()
    ensures { Normalises }
{}

// Any steps lead to one value at most.
#[tactic(auto, using(crate::proofs::Normalising::one_value))]
pub fn one_value()
    ensures { OneValue }
{}

// A step keeps a closed term closed, of its sort, and its cells lawful.
pub fn steps_keep_sorts()
    ensures { StepsKeepSorts }
{}

// With complete trees a closed sort-correct term is a value, or the strategy has a move; at a value it has none.
pub fn progress()
    ensures { Progress }
{}

// A function has a definitional tree, or a complete one, exactly when the fixed tree is one.
#[tactic(auto, using(crate::proofs::Exactness::fixed_tree_exact))]
pub fn fixed_tree_exact()
    ensures { FixedTreeExact }
{}

// The bounds in the definitions of the fixed tree and of the strategy cut nothing off.
#[tactic(auto, using(crate::proofs::Bounds::bounds_suffice))]
pub fn bounds_suffice()
    ensures { BoundsSuffice }
{}

// Grown by open positions, the fixed tree comes out, and no bound is passed on the way.
#[tactic(auto, using(crate::proofs::Growing::grows_fixed_tree))]
pub fn grows_fixed_tree()
    ensures { GrowsFixedTree }
{}

// Whether the fixed tree is complete can be told from its children's constructors alone.
#[tactic(auto, using(crate::proofs::Completeness::tells_complete))]
pub fn tells_complete()
    ensures { TellsComplete }
{}

// Small books, computed.
pub fn worked_examples()
    ensures { Worked }
{}

// Of small books: a complete tree, an incomplete one, and none at all.
#[tactic(auto, using(crate::proofs::Examples::judged))]
pub fn judged_examples()
    ensures { Judged }
{}

// The promises at one book, of which nothing is left to assume.
#[tactic(auto, using(crate::proofs::Examples::meet_holds))]
pub fn meet_holds()
    ensures { MeetHolds }
{}
