//! What holds of the protocol. The contract of each function is the law; a call of it does nothing.

ghost use Rattle.std.specs.Prelude.{◌≡◌, ◌⊎◌, List};
ghost use Rattle.wsm_protocol.specs.Runs.{IsRun, Run};
ghost use Rattle.wsm_protocol.specs.World.{log_of};
ghost use Rattle.wsm_protocol.specs.Steps.{Event, happens};
ghost use Rattle.wsm_protocol.specs.Laws.{GoesOn, IsFrontOf, IsLess, IsStill, after_all, rank};

/// Whatever happens, and whatever dies at whichever moment, the table has the first lines of one run over
/// the log, each once and in their order.
pub fn exactly_once()
    ensures { (r : Run) (events : List Event) → IsRun r → IsFrontOf (after_all r events).table (r.told (log_of (after_all r events))) }
{}

/// While nothing dies all lines come. Each step that goes on changes nothing or comes nearer to where none
/// does, by an order in which no way down is endless; and there the table has all lines of the log.
pub fn comes_to_all()
    ensures nearer { (r : Run) (events : List Event) (e : Event) → IsRun r → GoesOn e →
        (happens r (after_all r events) e ≡ after_all r events) ⊎ IsLess (rank (happens r (after_all r events) e)) (rank (after_all r events)) }
    ensures whole { (r : Run) (events : List Event) → IsRun r → IsStill r (after_all r events) →
        (after_all r events).table ≡ r.told (log_of (after_all r events)) }
{}
