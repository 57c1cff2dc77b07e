// That the law speaks of something: a pool that can be written down, and traces of the worked tree.
ghost use Rattle.law.specs.Lending.{Lends};
ghost use Rattle.worked_traces.specs.Queues.{queue_ways};
ghost use Rattle.worked_traces.specs.Shown.{EveryKind, WorkedTraces};

// The pool of most traces below keeps the laws of every pool.
pub fn queues_lend()
    ensures law { Lends queue_ways }
{}

// Every worked case is a trace of the worked tree.
pub fn worked_traces()
    ensures law { WorkedTraces }
{}

// Every kind of call occurs, accepted and refused; in one trace, but for what no trace has.
pub fn every_kind_of_call()
    ensures law { EveryKind }
{}
