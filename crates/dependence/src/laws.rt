// What the lists of producers and the links are.
ghost use Rattle.std.specs.Prelude.{◌≡◌};
ghost use Rattle.dependence.specs.Producers.{producers_of};
ghost use Rattle.dependence.specs.Laws.{ProducersConflict, ProducersAscend, EachTupleHasProducers, ProducersStandAtTheirTuple};
ghost use Rattle.dependence.specs.Laws.{LinksAreGreatest, LoneTuplesHaveNoLink};
ghost use Rattle.dependence.specs.Examples.{added_tuples, added_producers};

/// A tuple's producers are exactly the tuples that conflict with it, in ascending order, and the
/// list of a block has them at the tuple's number.
pub fn laws_of_producers()
    ensures exact { ProducersConflict }
    ensures ascending { ProducersAscend }
    ensures each { EachTupleHasProducers }
    ensures place { ProducersStandAtTheirTuple }
{}

/// The link of a tuple is the greatest earlier tuple that touches the same name, or prints as it
/// does, and 255 where there is none.
pub fn laws_of_links()
    ensures greatest { LinksAreGreatest }
    ensures none { LoneTuplesHaveNoLink }
{}

/// The producers of `c = a + b; print c;`.
pub fn producer_examples()
    ensures { producers_of added_tuples ≡ added_producers }
{}
